//! What is noted when a domain, its list, or the number of namespaces changes.
ghost use Rattle.std.specs.Prelude.{◌≡◌, ℕ, [], OnOk, OnErr};
ghost use Rattle.tm_index.specs.Listing.{Listed, listing};
ghost use Rattle.tm_index.specs.Index.{Told, told, noting_in, counting_in, closing_in, noting_domain, taking_live, HasDomain, AsManyDomains};
ghost use Rattle.tm_index.specs.Groups.{noting_lists};

use crate::index::{DomainIndex, Index};
use crate::label::Label;
use crate::list::ListIndex;
use std::alloc::Global;
use tm_list::{Map, NoMemory, Seq};
use tm_types::unions::DomainName;

/// Notes an entry that stands last, at this place, in the list of the domain of this number. After
/// want of memory the index is as before.
pub fn note_in(
    alloc: Global,
    index: &mut Index,
    number: u32,
    place: u32,
    label: &Label,
) -> Result<(), NoMemory>
    requires { HasDomain index.old number }
    ensures done { OnOk result
        (told index.new ≡ noting_in number label.now place (told index.old)) }
    ensures kept { OnErr result (told index.new ≡ told index.old) }
    ensures size { AsManyDomains index.new index.old }
{
    let mut domains = index.domains.take();
    match domains[number as usize].own.note(alloc, place, label) {
        Ok(()) => {
            index.domains = Seq::from_vec(domains);
            Ok(())
        }
        Err(fault) => {
            index.domains = Seq::from_vec(domains);
            Err(fault)
        }
    }
}

/// Takes the entry out that was noted last in the list of the domain of this number.
pub fn take_last_in(index: &mut Index, number: u32, label: &Label)
    requires { HasDomain index.old number }
    ensures { (before : Told) → (place : ℕ) →
        told index.old ≡ noting_in number label.now place before → told index.new ≡ before }
{
    let mut domains = index.domains.take();
    domains[number as usize].own.take_last(label);
    index.domains = Seq::from_vec(domains);
}

/// Notes how many permissions the domain of this number has.
pub fn count_in(index: &mut Index, number: u32, permissions: u64)
    requires { HasDomain index.old number }
    ensures { told index.new ≡ counting_in number permissions (told index.old) }
{
    let mut domains = index.domains.take();
    domains[number as usize].permissions = permissions;
    index.domains = Seq::from_vec(domains);
}

/// The entry at this place is gone from the list of the domain of this number.
pub fn close_in(index: &mut Index, number: u32, place: u32)
    requires { HasDomain index.old number }
    ensures done { told index.new ≡ closing_in number place (told index.old) }
    ensures size { AsManyDomains index.new index.old }
{
    let mut domains = index.domains.take();
    domains[number as usize].own.close(place);
    index.domains = Seq::from_vec(domains);
}

/// Notes a domain without entries that is made last, at this place, and has this name. After want
/// of memory the index is as before.
pub fn note_domain(
    alloc: Global,
    index: &mut Index,
    place: u32,
    name: &DomainName,
) -> Result<(), NoMemory>
    ensures done { OnOk result (told index.new ≡ noting_domain name.now place (told index.old)) }
    ensures kept { OnErr result (told index.new ≡ told index.old) }
{
    index.domains.push(DomainIndex {
        own: ListIndex::new(alloc),
        permissions: 0,
    })?;
    match index.live.note(alloc, name.bytes(), place) {
        Ok(()) => Ok(()),
        Err(fault) => {
            let _ = index.domains.pop();
            Err(fault)
        }
    }
}

/// Takes the domain out that was noted last, of this name.
pub fn take_domain(index: &mut Index, name: &DomainName)
    ensures { (before : Told) → (place : ℕ) →
        told index.old ≡ noting_domain name.now place before → told index.new ≡ before }
{
    let _ = index.domains.pop();
    index.live.take_last(name.bytes());
}

/// The first of the domains of this name that are noted is live no more.
pub fn take_live(index: &mut Index, name: &DomainName)
    ensures { told index.new ≡ taking_live name.now (told index.old) }
{
    index.live.take_first(name.bytes());
}

/// Notes a namespace without ACL groups, last. After want of memory the index is as before.
pub fn note_namespace(alloc: Global, index: &mut Index) -> Result<(), NoMemory>
    ensures done { OnOk result (told index.new
        ≡ noting_lists (λ number. listing []) (told index.old)) }
    ensures kept { OnErr result (told index.new ≡ told index.old) }
{
    index.groups.push(Map::new(alloc))
}

/// Takes the namespace out that was noted last.
pub fn take_namespace(index: &mut Index)
    ensures { (before : Told) → (lists : ℕ → Listed) →
        told index.old ≡ noting_lists lists before → told index.new ≡ before }
{
    let _ = index.groups.pop();
}
