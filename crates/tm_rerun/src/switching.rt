//! Policies with their profiles enforcing.
ghost use Rattle.std.specs.Prelude.{◌≡◌, ℕ, IfOk, map};
ghost use Rattle.tm_rules.specs.Types.{Config, Namespace, Profile, SlotName};
ghost use Rattle.tm_legal.specs.Prelude.{switched, switched_config, switched_mode, switched_profile};

use std::alloc::Global;
use tm_list::{Copied, Map, NoMemory, Seq};
use tm_types::policy::{Config, Mode, Namespace, Policy, Profile, Profiles, SlotName};

fn switched_mode(mode: Mode) -> Mode
    ensures { result ≡ switched_mode mode }
{
    match mode {
        Mode::Disabled => Mode::Disabled,
        Mode::Learning => Mode::Enforcing,
        Mode::Permissive => Mode::Permissive,
        Mode::Enforcing => Mode::Enforcing,
    }
}

fn switched_config(config: Config) -> Config
    ensures { result ≡ switched_config config }
{
    Config {
        mode: switched_mode(config.mode),
        logs: config.logs,
    }
}

// The slots with each mode switched, under the same names.
fn switched_slots(
    alloc: Global,
    slots: &Map<SlotName, Config>,
) -> Result<Map<SlotName, Config>, NoMemory>
    ensures { IfOk result (λ made. made ≡ map (λ (pair : SlotName × Config).
        (pair.0, switched_config pair.1)) slots.now) }
{
    let mut made = slots.copy(alloc)?;
    for (name, config) in slots.as_slice() {
        made.replace(name, switched_config(*config));
    }
    Ok(made)
}

fn switched_profile(alloc: Global, profile: &Profile) -> Result<Profile, NoMemory>
    ensures { IfOk result (λ made. made ≡ switched_profile profile.now) }
{
    Ok(Profile {
        comment: profile.comment.copy(alloc)?,
        max_audit_log: profile.max_audit_log,
        max_learning_entry: profile.max_learning_entry,
        config: switched_config(profile.config),
        slots: switched_slots(alloc, &profile.slots)?,
    })
}

// The profiles switched, each under its number.
fn switched_profiles(alloc: Global, profiles: &Profiles) -> Result<Profiles, NoMemory>
    ensures { IfOk result (λ made. made ≡ map (λ (pair : ℕ × Profile).
        (pair.0, switched_profile pair.1)) profiles.now) }
{
    let mut made = profiles.copy(alloc)?;
    for (number, profile) in profiles.as_slice() {
        let changed = switched_profile(alloc, profile)?;
        made.replace(number, changed);
    }
    Ok(made)
}

// A namespace that is the same but for its profiles, which are switched.
fn switched_namespace(alloc: Global, namespace: &Namespace) -> Result<Namespace, NoMemory>
    ensures { IfOk result (λ made. made ≡
        record namespace.now {
          profiles = map
              (λ (pair : ℕ × Profile). (pair.0, switched_profile pair.1)) namespace.now.profiles;
        }) }
{
    Ok(Namespace {
        name: namespace.name.copy(alloc)?,
        profiles: switched_profiles(alloc, &namespace.profiles)?,
        groups: namespace.groups.copy(alloc)?,
        aggregators: namespace.aggregators.copy(alloc)?,
        controls: namespace.controls.copy(alloc)?,
        acl_groups: namespace.acl_groups.copy(alloc)?,
    })
}

fn switched_namespaces(alloc: Global, namespaces: &[Namespace]) -> Result<Seq<Namespace>, NoMemory>
    ensures { IfOk result (λ made. made ≡
        map (λ (ns : Namespace). record ns {
          profiles = map (λ (pair : ℕ × Profile). (pair.0, switched_profile pair.1)) ns.profiles;
        }) namespaces.now) }
{
    let mut made = Seq::new(alloc);
    for namespace in namespaces {
        made.push(switched_namespace(alloc, namespace)?)?;
    }
    Ok(made)
}

/// The policy with its profiles enforcing: each mode learning, of a profile and of its functions,
/// is enforcing in it. Modes disabled and permissive stay, and so does everything else: the domains
/// under their numbers, live or deleted, their lines and marks, groups, aggregators, controls and
/// managers.
///
/// Errors: want of memory.
#[tactic(auto, unfolding(tm_legal::specs::Clean::switched))]
pub fn switched(alloc: Global, policy: &Policy) -> Result<Policy, NoMemory>
    ensures { IfOk result (λ made. made ≡ switched policy.now) }
{
    Ok(Policy {
        namespaces: switched_namespaces(alloc, policy.namespaces.as_slice())?,
        domains: policy.domains.copy(alloc)?,
        by_non_root: policy.by_non_root,
        managers: policy.managers.copy(alloc)?,
        opened: policy.opened,
    })
}
