//! The places of executes, and the domain at each.
ghost use Rattle.std.specs.Prelude.{◌≡◌, length, slice_get, OnOk};
ghost use Rattle.tm_log_processes.specs.Places.{no_places, with_place, first_in, is_at};

use crate::process::Place;
use std::alloc::Global;
use std::marker::Model;
use tm_list::NoMemory;
use tm_types::unions::DomainName;
use tm_word::texts_equal;

/// The places of executes in the order in which they were recorded, each with the domain of its
/// process there.
#[derive(Drop)]
pub struct Places {
    list: Vec<Place>,
    domains: Vec<DomainName>,
}

impl Model for Places {
    ghost use Rattle.tm_log_processes.specs.Places.{Left};

    ghost Value = { Left };

    ghost view = { λ s. record { places = s.list.items; domains = s.domains.items } };
}

impl Places {
    /// No place.
    pub fn new(alloc: Global) -> Places
        ensures { result ≡ no_places }
    {
        Places {
            list: Vec::new(alloc),
            domains: Vec::new(alloc),
        }
    }

    /// How many there are.
    pub fn len(&self) -> usize
        ensures { result ≡ length self.now.places }
    {
        self.list.len()
    }

    /// One place more, which is last.
    pub fn push(&mut self, place: Place, domain: DomainName) -> Result<(), NoMemory>
        ensures { OnOk result (self.new ≡ with_place self.old place domain) }
    {
        self.list.push(place)?;
        self.domains.push(domain)?;
        Ok(())
    }

    /// The place with this number, from 0.
    pub fn at(&self, i: usize) -> Option<Place>
        ensures { result ≡ slice_get self.now.places i }
    {
        match self.list.get(i) {
            Some(place) => Some(*place),
            None => None,
        }
    }

    /// The number of the first place in this domain.
    pub fn first_in(&self, domain: &DomainName) -> Option<usize>
        ensures { result ≡ first_in self.now domain.now }
    {
        self.domains
            .iter()
            .position(|name| texts_equal(name, domain))
    }

    /// Whether a place is in this domain.
    pub fn is_in(&self, i: usize, domain: &DomainName) -> bool
        ensures { result ≡ is_at self.now i domain.now }
    {
        match self.domains.get(i) {
            Some(name) => texts_equal(name, domain),
            None => false,
        }
    }
}
