//! The generated files.
ghost use Rattle.std.specs.Prelude.{◌≡◌, IfOk};
ghost use Rattle.tm_gen.specs.Files.{generated};

use crate::trace::trace_of;
use std::alloc::Global;
use tm_list::NoMemory;
use tm_word::Text;

const PROFILE: &[u8] = b"PROFILE_VERSION=20150505\n\
0-COMMENT=generated\n\
0-PREFERENCE={ max_audit_log=1024 max_learning_entry=200000 }\n\
0-CONFIG={ mode=learning grant_log=no reject_log=no }\n";

const EXCEPTION: &[u8] = b"path_group TMP /tmp/\\$\n\
initialize_domain /p0 from any\n\
acl_group 0 file read @TMP\n";

const DOMAIN: &[u8] = b"<kernel>\nuse_profile 0\nuse_group 0\n";

const MANAGER: &[u8] = b"/usr/sbin/admin\n";

/// The texts of the four policy files and of `trace`.
#[derive(Drop)]
pub struct Generated {
    pub profile: Text,
    pub exception: Text,
    pub domain: Text,
    pub manager: Text,
    pub trace: Text,
}

/// Generates the files of so many trees from a seed. Any seed and any size will do.
///
/// Errors: want of memory.
#[tactic(auto, unfolding(crate::specs::Files::generated))]
pub fn generate(alloc: Global, seed: u64, size: u32) -> Result<Generated, NoMemory>
    ensures { IfOk result (λ made. made ≡ generated seed size) }
{
    Ok(Generated {
        profile: Text::from_bytes(alloc, PROFILE)?,
        exception: Text::from_bytes(alloc, EXCEPTION)?,
        domain: Text::from_bytes(alloc, DOMAIN)?,
        manager: Text::from_bytes(alloc, MANAGER)?,
        trace: trace_of(alloc, seed, size)?,
    })
}
