//! Which zones of numbers stay in a cut: those on the way to a mapped block below it.
ghost use Rattle.std.specs.Prelude.{◌≡◌};
ghost use Rattle.volume_model.specs.Volume.{indirect, double, inner};
ghost use Rattle.volume_model.specs.editing.code.Cutting.{keeps_listed};

use volume_ops::Mapped;

/// The indirect zone stays.
pub fn keeps_indirect(zones: &[Mapped], from: u32) -> bool
    ensures { result ≡ keeps_listed zones.now from indirect }
{
    zones
        .iter()
        .any(|m| m.index < from && (7 <= m.index && m.index < 519))
}

/// The doubly indirect zone stays.
pub fn keeps_double(zones: &[Mapped], from: u32) -> bool
    ensures { result ≡ keeps_listed zones.now from double }
{
    zones.iter().any(|m| m.index < from && 519 <= m.index)
}

/// Zone of numbers `group` of the doubly indirect one stays.
pub fn keeps_inner(zones: &[Mapped], from: u32, group: u32) -> bool
    ensures { result ≡ keeps_listed zones.now from (inner group) }
{
    zones.iter().any(|m| m.index < from && (519 <= m.index && (m.index - 519) / 512 == group))
}
