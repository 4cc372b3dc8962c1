//! What a profile line does.
ghost use Rattle.std.specs.Prelude.{◌≡◌, OnOk, OnErr, true, option_map, unwrap_or};
ghost use Rattle.std.specs.List.{AllByRecursion};
ghost use Rattle.tm_rules.specs.Types.{Config};
ghost use Rattle.tm_rules.specs.Prelude.{IsFewHere, at_key, in_namespace, new_profile, profile_line, put_key, set_config, set_slot, slot};
ghost use Rattle.tm_change_namespaces.specs.Effects.{number_of, profile_after};

use crate::namespaces::{Change, in_namespace};
use std::alloc::Global;
use tm_list::{Map, NoMemory, Seq};
use tm_types::policy::{
    Config, Logs, Mode, Namespace, Profile, ProfileEffect, Profiles, Setting, SlotName,
};
use tm_word::Text;

// A profile of which nothing was written.
fn new_profile(alloc: Global) -> Profile
    ensures { result ≡ new_profile }
{
    Profile {
        comment: Seq::new(alloc),
        max_audit_log: 1024,
        max_learning_entry: 2048,
        config: Config {
            mode: Mode::Disabled,
            logs: Logs {
                grant: true,
                reject: true,
            },
        },
        slots: Map::new(alloc),
    }
}

// A log that isn't written keeps its value.
fn set_config(setting: Setting, logs: Logs) -> Config
    ensures { result ≡ set_config setting logs }
{
    Config {
        mode: setting.mode,
        logs: Logs {
            grant: setting.grant.unwrap_or(logs.grant),
            reject: setting.reject.unwrap_or(logs.reject),
        },
    }
}

// The logs of a slot; each is yes in a new one.
fn slot_logs(profile: &Profile, name: &SlotName) -> Logs
    ensures { result ≡ unwrap_or (option_map (λ (config : Config). config.logs)
        (slot profile.now name.now)) (record { grant = true; reject = true }) }
{
    match profile.slots.get(name) {
        Some(config) => config.logs,
        None => Logs {
            grant: true,
            reject: true,
        },
    }
}

// Sets a slot, or lets it be `use_default`.
fn set_slot(profile: &mut Profile, name: SlotName, setting: Option<Setting>) -> Result<(), NoMemory>
    ensures done { OnOk result (profile.new ≡ set_slot name setting profile.old) }
    ensures kept { OnErr result (profile.new ≡ profile.old) }
{
    match setting {
        Some(setting) => {
            let config = set_config(setting, slot_logs(profile, &name));
            profile.slots.put(name, config)
        }
        None => {
            profile.slots.remove(&name);
            Ok(())
        }
    }
}

// The number of the profile that a line speaks of.
fn number_of(effect: &ProfileEffect) -> Option<u8>
    ensures { result ≡ number_of effect.now }
{
    match effect {
        ProfileEffect::Version => None,
        ProfileEffect::Comment(number, _)
        | ProfileEffect::Preference(number, _, _)
        | ProfileEffect::Config(number, _)
        | ProfileEffect::Slot(number, _, _) => Some(*number),
    }
}

// Does what a line says to its profile.
fn change_profile(profile: &mut Profile, effect: ProfileEffect) -> Result<(), NoMemory>
    ensures done { OnOk result (profile.new ≡ profile_after effect profile.old) }
    ensures kept { OnErr result (profile.new ≡ profile.old) }
{
    match effect {
        ProfileEffect::Version => Ok(()),
        ProfileEffect::Comment(_, text) => {
            profile.comment = text;
            Ok(())
        }
        ProfileEffect::Preference(_, audit, learning) => {
            profile.max_audit_log = audit.unwrap_or(profile.max_audit_log);
            profile.max_learning_entry = learning.unwrap_or(profile.max_learning_entry);
            Ok(())
        }
        ProfileEffect::Config(_, setting) => {
            profile.config = set_config(setting, profile.config.logs);
            Ok(())
        }
        ProfileEffect::Slot(_, name, setting) => set_slot(profile, name, setting),
    }
}

// Does what a line says to the profile of this number, which is made where it isn't there.
fn on_profile(
    alloc: Global,
    profiles: &mut Profiles,
    number: u8,
    effect: ProfileEffect,
) -> Result<(), NoMemory>
    ensures done { OnOk result (profiles.new ≡ put_key number
        (profile_after effect (unwrap_or (at_key profiles.old number) new_profile)) profiles.old) }
    ensures kept { OnErr result (profiles.new ≡ profiles.old) }
{
    match profiles.replace(&number, new_profile(alloc)) {
        Some(mut profile) => {
            let outcome = change_profile(&mut profile, effect);
            let _ = profiles.replace(&number, profile);
            outcome
        }
        None => {
            let mut profile = new_profile(alloc);
            change_profile(&mut profile, effect)?;
            profiles.put(number, profile)
        }
    }
}

impl Change for ProfileEffect {
    ghost use Rattle.tm_rules.specs.Prelude.{profile_line};

    ghost changed = { profile_line };

    fn change(self, alloc: Global, namespace: &mut Namespace) -> Result<(), NoMemory> {
        match number_of(&self) {
            Some(number) => on_profile(alloc, &mut namespace.profiles, number, self),
            None => {
                drop(self);
                Ok(())
            }
        }
    }
}

/// Does a profile line to the namespace of that name, which is made last where it isn't there: a
/// line with a number defines that profile, and what it doesn't write stays.
///
/// Errors: want of memory; the namespaces are then as before.
pub fn apply_profile(
    alloc: Global,
    namespaces: &mut Seq<Namespace>,
    name: Text,
    effect: ProfileEffect,
) -> Result<(), NoMemory>
    ensures done { OnOk result
        (namespaces.new ≡ in_namespace name (profile_line effect) namespaces.old) }
    ensures kept { OnErr result (namespaces.new ≡ namespaces.old) }
    ensures few { AllByRecursion IsFewHere namespaces.old
        → AllByRecursion IsFewHere namespaces.new }
{
    in_namespace(alloc, namespaces, name, effect)
}
