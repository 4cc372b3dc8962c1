//! Small policies and their lines, from texts, and requests, for the tests.
ghost use Rattle.std.specs.Prelude.{IfOk};
ghost use Rattle.tm_rules.specs.Prelude.{IsFew};

use std::alloc::{AllocError, Global};
use tm_entry::read_entry;
use tm_list::{NoMemory, Seq};
use tm_pattern::literal;
use tm_policy::load;
use tm_types::entry::{Args, Entry};
use tm_types::policy::Policy;
use tm_types::request::{Attributes, Ids, Proc, Request};
use tm_types::step::PolicyFiles;
use tm_types::unions::NameUnion;
use tm_word::{Text, normal_words};

/// Policy files with these profiles and these domains, and nothing else.
pub fn files(alloc: Global, profile: &[u8], domain: &[u8]) -> Result<PolicyFiles, NoMemory> {
    Ok(PolicyFiles {
        profile: Text::from_bytes(alloc, profile)?,
        exception: Text::new(alloc),
        domain: Text::from_bytes(alloc, domain)?,
        manager: Text::new(alloc),
    })
}

/// The policy of these files.
pub fn policy(alloc: Global, files: &PolicyFiles) -> Result<Policy, NoMemory>
    ensures { IfOk result IsFew }
{
    match load(alloc, files) {
        Ok(policy) => Ok(policy),
        Err(_) => Err(AllocError),
    }
}

/// The entry of a line.
pub fn entry(alloc: Global, line: &[u8]) -> Result<Entry, NoMemory> {
    match read_entry(alloc, &normal_words(alloc, line)?) {
        Ok(entry) => Ok(entry),
        Err(_) => Err(AllocError),
    }
}

/// The argument of a line on a file of this name.
fn named(alloc: Global, name: &[u8]) -> Result<Args, NoMemory> {
    let word = Seq::from_bytes(alloc, name)?;
    Ok(Args::Path(NameUnion::One(literal(alloc, &word)?)))
}

/// A read of this file.
pub fn read(alloc: Global, name: &[u8]) -> Result<Request, NoMemory> {
    request(alloc, named(alloc, name)?, 1)
}

/// A request with these arguments and the permission at this place, and nothing recorded besides.
pub fn request(alloc: Global, args: Args, perm: u8) -> Result<Request, NoMemory> {
    let attributes = Attributes::none(alloc);
    Request::new(alloc, args, perm, attributes)
}

/// Process 7, of root.
pub fn process() -> Proc {
    Proc {
        pid: 7,
        ppid: 0,
        ids: Ids {
            uid: 0,
            euid: 0,
            suid: 0,
            fsuid: 0,
            gid: 0,
            egid: 0,
            sgid: 0,
            fsgid: 0,
        },
    }
}
