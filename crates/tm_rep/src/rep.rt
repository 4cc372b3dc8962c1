//! What a representation of a policy offers.
ghost use Rattle.std.specs.Prelude.{◌≡◌, Some, IsSome, IfOk, OnErr, option_map};

use std::alloc::Global;
use tm_change_domains::Standing;
use tm_list::NoMemory;
use tm_types::entry::Entry;
use tm_types::policy::{Cursor, Policy};
use tm_types::request::{Proc, Request};
use tm_types::step::{EditReply, FileKind, LearnReply, MakeReply};
use tm_types::unions::DomainName;
use tm_types::verdict::Found;

/// A representation of a policy, such as the plain one or one with an index. Each call answers of
/// its policy what its definition says.
pub trait Rep: Sized + Drop {
    ghost use Rattle.tm_rules.specs.Types.{Policy};
    ghost use Rattle.tm_rules.specs.Prelude.{IsFew, apply_line, fail, first, found, found_of, learn, live_domain, make};
    ghost use Rattle.tm_grammar.specs.Tomoyo.{tomoyo_grammar};
    ghost use Rattle.tm_change_domains.specs.Standing.{StandsIn};

    ghost policy: { Self → Policy };

    /// Lends its policy.
    fn policy(&self) -> &Policy
        ensures { result.now ≡ policy self.now };

    /// The first entry that grants the request of a process in the domain of this number: its own
    /// entries in order, then those of its ACL groups by rising number. None where no entry grants
    /// it or the domain isn't there. Takes no memory.
    fn search(&self, domain: u32, process: &Proc, request: &Request) -> Option<Found>
        requires { IsFew (policy self.now) }
        ensures { result ≡ found (policy self.now) domain process.now request.now };

    /// The same where the look's standing is known, by which nothing is looked for again. Takes no
    /// memory.
    fn search_in(&self, standing: &Standing<'_>, process: &Proc, request: &Request) -> Option<Found>
        requires few { IsFew (policy self.now) }
        requires standing { StandsIn (policy self.now) standing.now }
        ensures { result ≡ option_map found_of
            (first standing.now.namespace standing.now.domain process.now request.now) };

    /// The number of the live domain of that name. Takes no memory.
    fn live_domain(&self, name: &DomainName) -> Option<u32>
        requires { IsFew (policy self.now) }
        ensures { result ≡ live_domain (policy self.now) name.now };

    /// Does a line of a policy file, whatever its bytes are, with the cursor of that file or
    /// editor, and gives its reply: the line is done, or refused by the policy as it stands, or it
    /// is outside the grammar. A line that isn't done leaves the policy as it was, and the cursor
    /// too but for a `select` that finds nothing. Errors: want of memory, also where a list would
    /// have 2^32 members; policy and cursor are then as before.
    fn apply_line(
        &mut self,
        alloc: Global,
        file: FileKind,
        cursor: &mut Cursor,
        line: &[u8],
    ) -> Result<EditReply, NoMemory>
        requires { IsFew (policy self.old) }
        ensures done { IfOk result
            (λ reply. apply_line tomoyo_grammar (policy self.old) file cursor.old line.now ≡
            record { policy = policy self.new; cursor = cursor.new; reply = reply }) }
        ensures kept { OnErr result
            ((policy self.new ≡ policy self.old) × (cursor.new ≡ cursor.old)) }
        ensures few { IsFew (policy self.new) };

    /// Learns a line in the domain of this number, and gives the reply: `Mode` where the mode isn't
    /// learning, else `There` where the domain has the line, else `Quota` where it is full, which
    /// raises its flag `quota_exceeded`, else `Added`. The domain and its profile are there.
    /// Errors: want of memory; the policy is then as before.
    fn apply_learn(
        &mut self,
        alloc: Global,
        domain: u32,
        entry: &Entry,
    ) -> Result<LearnReply, NoMemory>
        requires few { IsFew (policy self.old) }
        requires there { IsSome (learn (policy self.old) domain entry.now) }
        ensures done { IfOk result
            (λ reply. learn (policy self.old) domain entry.now ≡ Some (policy self.new, reply)) }
        ensures kept { OnErr result (policy self.new ≡ policy self.old) }
        ensures few { IsFew (policy self.new) };

    /// Makes a domain for a transition out of the domain of this number, whose profile and groups
    /// it takes: the reply is its number. A live domain of that name is taken instead. The domain
    /// and its profile are there. Errors: want of memory, also where the policy would have 2^32
    /// domains; the policy is then as before.
    fn apply_make(
        &mut self,
        alloc: Global,
        domain: u32,
        name: DomainName,
    ) -> Result<MakeReply, NoMemory>
        requires few { IsFew (policy self.old) }
        requires there { IsSome (make (policy self.old) domain name) }
        ensures done { IfOk result
            (λ reply. make (policy self.old) domain name ≡ Some (policy self.new, reply)) }
        ensures kept { OnErr result (policy self.new ≡ policy self.old) }
        ensures few { IsFew (policy self.new) };

    /// Marks the domain of this number as one that a transition couldn't leave, and tells whether
    /// it wasn't marked before. The domain and its profile are there. Takes no memory.
    fn apply_fail(&mut self, domain: u32) -> bool
        requires few { IsFew (policy self.old) }
        requires there { IsSome (fail (policy self.old) domain) }
        ensures done { fail (policy self.old) domain ≡ Some (policy self.new, result) }
        ensures few { IsFew (policy self.new) };

    /// Gives up the representation for its policy. Takes no memory.
    fn into_policy(self) -> Policy
        ensures { result ≡ policy self };

    /// A representation with the equal policy.
    fn copy(&self, alloc: Global) -> Result<Self, NoMemory>
        ensures { IfOk result (λ made. policy made ≡ policy self.now) };
}
