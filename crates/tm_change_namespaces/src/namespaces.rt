//! A change of the namespace of a name, in its place.
ghost use Rattle.std.specs.Prelude.{◌≡◌, ◌<◌, length, IfSome, OnOk, OnErr};
ghost use Rattle.std.specs.List.{AllByRecursion, find, position_from};
ghost use Rattle.std.specs.Option.{option_copied};
ghost use Rattle.tm_rules.specs.Types.{Namespace};
ghost use Rattle.tm_word.specs.Prelude.{texts_equal};
ghost use Rattle.tm_rules.specs.Prelude.{IsFewHere, changed_at, empty_namespace, in_namespace};

use std::alloc::Global;
use tm_list::{Map, NoMemory, Seq};
use tm_types::policy::Namespace;
use tm_types::unions::Groups;
use tm_word::{Text, bytes_equal};

/// What a line does to the namespace that it speaks of. Errors: want of memory; the namespace is
/// then as before.
pub(crate) trait Change: Drop {
    ghost use Rattle.tm_rules.specs.Types.{Namespace};
    ghost use Rattle.tm_rules.specs.Prelude.{IsFewHere};

    ghost changed: { Self → Namespace → Namespace };

    fn change(self, alloc: Global, namespace: &mut Namespace) -> Result<(), NoMemory>
        ensures done { OnOk result (namespace.new ≡ changed self namespace.old) }
        ensures kept { OnErr result (namespace.new ≡ namespace.old) }
        ensures few { IsFewHere namespace.old → IsFewHere namespace.new };
}

// A namespace of which nothing was written.
fn empty_namespace(alloc: Global, name: Text) -> Namespace
    ensures { result ≡ empty_namespace name }
{
    Namespace {
        name,
        profiles: Map::new(alloc),
        groups: Groups {
            paths: Seq::new(alloc),
            numbers: Seq::new(alloc),
            addrs: Seq::new(alloc),
        },
        aggregators: Seq::new(alloc),
        controls: Seq::new(alloc),
        acl_groups: Map::new(alloc),
    }
}

/// Where the namespace of that name stands among these, where it has a line. Takes no memory.
pub fn namespace_place(namespaces: &[Namespace], name: &[u8]) -> Option<usize>
    ensures found { result ≡ position_from
        (λ (ns : Namespace). texts_equal ns.name name.now) 0 namespaces.now }
    ensures within { IfSome result (λ place. place < length namespaces.now) }
{
    for (place, namespace) in namespaces.iter().enumerate() {
        if bytes_equal(namespace.name.bytes(), name) {
            return Some(place);
        }
    }
    None
}

/// The namespace of that name, where it has a line.
pub(crate) fn find_namespace<'a>(namespaces: &'a [Namespace], name: &[u8]) -> Option<&'a Namespace>
    ensures { option_copied result ≡ find
        (λ (ns : Namespace). texts_equal ns.name name.now) namespaces.now }
{
    for namespace in namespaces {
        if bytes_equal(namespace.name.bytes(), name) {
            return Some(namespace);
        }
    }
    None
}

// Does a change to the namespace at this place.
fn change_at<C: Change>(
    alloc: Global,
    namespaces: &mut Seq<Namespace>,
    place: usize,
    change: C,
) -> Result<(), NoMemory>
    requires { place < length namespaces.old }
    ensures done { OnOk result
        (namespaces.new ≡ changed_at place (C.changed change) namespaces.old) }
    ensures kept { OnErr result (namespaces.new ≡ namespaces.old) }
    ensures few { AllByRecursion IsFewHere namespaces.old
        → AllByRecursion IsFewHere namespaces.new }
{
    let mut list = namespaces.take();
    match change.change(alloc, &mut list[place]) {
        Ok(()) => {
            *namespaces = Seq::from_vec(list);
            Ok(())
        }
        Err(fault) => {
            *namespaces = Seq::from_vec(list);
            Err(fault)
        }
    }
}

/// Does a change to the namespace of that name, which is made last where it isn't there. Errors:
/// want of memory; the namespaces are then as before.
pub(crate) fn in_namespace<C: Change>(
    alloc: Global,
    namespaces: &mut Seq<Namespace>,
    name: Text,
    change: C,
) -> Result<(), NoMemory>
    ensures done { OnOk result
        (namespaces.new ≡ in_namespace name (C.changed change) namespaces.old) }
    ensures kept { OnErr result (namespaces.new ≡ namespaces.old) }
    ensures few { AllByRecursion IsFewHere namespaces.old
        → AllByRecursion IsFewHere namespaces.new }
{
    match namespace_place(namespaces.as_slice(), name.bytes()) {
        Some(place) => change_at(alloc, namespaces, place, change),
        None => {
            let mut namespace = empty_namespace(alloc, name);
            change.change(alloc, &mut namespace)?;
            namespaces.push(namespace)
        }
    }
}
