//! The versions of the format, and how the rules of each are numbered.

ghost use Rattle.std.specs.Prelude.{◌≡◌};
ghost use Rattle.rela_snapshot.specs.Version as spec;

use rela_json::LoadError;

/// A version of the format. The first names nodes by their indexes in the flow's list and holds
/// IPv4 alone; the second names them by ids of their own, and holds IPv6 too.
#[derive(Clone, Copy)]
pub(crate) enum Version {
    /// The format with the number 1.
    One,
    /// The format with the number 2.
    Two,
}

/// The numbers of the rules for the parts of a flow that both versions have.
#[derive(Clone, Copy)]
pub(crate) struct FlowRules {
    /// That a flow is an object.
    pub(crate) flow: u8,
    /// That its `name` is a string.
    pub(crate) name: u8,
    /// That its `dst` is a string.
    pub(crate) dst: u8,
    /// That its `src`, if it is there, is a string.
    pub(crate) src: u8,
    /// That its `class`, if it is there, is a string.
    pub(crate) class: u8,
    /// That its `nodes` are an array.
    pub(crate) nodes: u8,
}

/// The version of this number.
///
/// # Errors
///
/// `BadVersion` where there is none.
pub(crate) fn version_of(number: u64) -> Result<Version, LoadError>
    ensures { result ≡ spec.version_of number }
{
    match number {
        1 => Ok(Version::One),
        2 => Ok(Version::Two),
        _ => Err(LoadError::BadVersion),
    }
}

/// The numbers of the rules for the parts of a flow in this version.
pub(crate) fn flow_rules(version: Version) -> FlowRules
    ensures { result ≡ spec.flow_rules version }
{
    match version {
        Version::One => FlowRules {
            flow: 24,
            name: 25,
            dst: 26,
            src: 27,
            class: 28,
            nodes: 29,
        },
        Version::Two => FlowRules {
            flow: 41,
            name: 42,
            dst: 43,
            src: 44,
            class: 45,
            nodes: 46,
        },
    }
}
