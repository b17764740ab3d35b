//! Which settings are open: those that no later one takes back, and that do not end.
ghost use Rattle.std.specs.Prelude.{◌≡◌, ◌&&◌, ◌++◌, ℕ, List, [], ◌∷◌, IfOk, OnOk, false, map, not};
ghost use Rattle.std.specs.Prelude.{reverse};
ghost use Rattle.std.specs.List.{list_any};
ghost use Rattle.textwrap_styles.specs.OpenStyles.{AreLater};
ghost use Rattle.textwrap_styles.specs.Settings.{in_effect, is_unknown, kind_of, latest, replaces};
ghost use Rattle.textwrap_styles.specs.Settings.{takes_back};

use crate::settings::{KINDS, Kind, is_end, kind_of};
use std::alloc::{AllocError, Allocator};
use std::collections::BTreeSet;

/// Keeps the settings that are open.
pub(crate) fn keep_open<'t, A: Allocator + Copy>(
    alloc: A,
    settings: &mut Vec<&'t str, A>,
) -> Result<(), AllocError>
    ensures { OnOk result (map (λ s. s.now) settings.new.items
        ≡ in_effect (latest (map (λ s. s.now) settings.old.items))) }
{
    let latest = take_latest(alloc, settings)?;
    put_back(latest, settings)
}

/// Takes all settings, and returns those that no later one takes back, the last one first.
fn take_latest<'t, A: Allocator + Copy>(
    alloc: A,
    settings: &mut Vec<&'t str, A>,
) -> Result<Vec<&'t str, A>, AllocError>
    ensures latest { IfOk result (λ last. map (λ s. s.now) (reverse last.items)
        ≡ latest (map (λ s. s.now) settings.old.items)) }
    ensures taken { OnOk result (settings.new.items ≡ []) }
{
    let mut later = Later::new(alloc);
    let mut latest = Vec::new(alloc);
    while let Some(setting) = settings.pop() {
        if later.insert(setting)? {
            latest.push(setting)?;
        }
    }
    Ok(latest)
}

/// Puts these back, the last one first, without those that end something where nothing unknown is
/// before them.
fn put_back<'t, A: Allocator>(
    mut latest: Vec<&'t str, A>,
    settings: &mut Vec<&'t str, A>,
) -> Result<(), AllocError>
    ensures { OnOk result (map (λ s. s.now) settings.new.items ≡ map (λ s. s.now) settings.old.items
        ++ in_effect (map (λ s. s.now) (reverse latest.entry.items))) }
{
    let mut behind_unknown = false;
    while let Some(setting) = latest.pop() {
        behind_unknown = behind_unknown || kind_of(setting).is_unknown();
        if behind_unknown || !is_end(setting) {
            settings.push(setting)?;
        }
    }
    Ok(())
}

/// What later settings set or end.
#[derive(Drop)]
struct Later<'t, A: Allocator> {
    /// Of which kinds there is one.
    kinds: [bool; KINDS],
    /// Those that the table does not know.
    unknown: BTreeSet<&'t str, A>,
}

impl<'t, A: Allocator + Copy> Later<'t, A> {
    /// There are none.
    fn new(alloc: A) -> Self
        ensures { AreLater [] result }
    {
        Later {
            kinds: [false; KINDS],
            unknown: BTreeSet::new(alloc),
        }
    }

    /// Adds a setting in front of them. Returns whether none of them takes it back.
    fn insert(&mut self, setting: &'t str) -> Result<bool, AllocError>
        ensures fresh { (later : List (List ℕ)) → AreLater later self.old → IfOk result
            (λ fresh. fresh ≡ not (list_any (λ t. replaces t setting.now) later)) }
        ensures added { (later : List (List ℕ)) → AreLater later self.old
            → OnOk result (AreLater (setting.now ∷ later) self.new) }
    {
        let kind = kind_of(setting);
        if kind.is_unknown() {
            return Ok(self.unknown.insert(setting)?);
        }
        let fresh = !self.take_back(kind);
        self.kinds[kind.number()] = true;
        Ok(fresh)
    }

    /// Whether one of them takes back a setting of this kind, which is not unknown.
    fn take_back(&self, kind: Kind) -> bool
        requires { is_unknown kind ≡ false }
        ensures { (later : List (List ℕ)) → AreLater later self.now
            → result ≡ list_any (λ t. not (is_unknown (kind_of t))
            && takes_back (kind_of t) kind) later }
    {
        let end = kind.common_end();
        self.kinds[kind.number()] || self.kinds[end.number()]
    }
}
