//! The commands, and the bounds of their numbers.

/// The state limit where the words give none.
pub const DEFAULT_STATES: usize = 100_000;

/// The greatest state limit that the words may give.
pub const MAX_STATES: usize = 4_000_000;

/// The greatest number of layers that the words may give.
pub const MAX_LAYERS: usize = 200;

/// To check a change.
#[derive(Drop)]
pub struct Check {
    /// The name of the file with the snapshot before the change.
    pub before: String,
    /// The name of the file with the snapshot after the change.
    pub after: String,
    /// The name of the file with the locations.
    pub locations: String,
    /// The name of the file with the specification.
    pub spec: String,
    /// The state limit of each verdict, from 1 to [`MAX_STATES`].
    pub states: usize,
    /// Whether each violated row tells the alternative that its path falls under.
    pub blame: bool,
}

/// To write the canonical text of a specification.
#[derive(Drop)]
pub struct Fmt {
    /// The name of the file with the specification.
    pub spec: String,
}

/// To write the snapshot that forwarding tables give.
#[derive(Drop)]
pub struct Fib {
    /// The name of the file with the tables.
    pub tables: String,
    /// The name of the file with other tables, whose routes cut the flows too.
    pub other: String,
    /// The name of the file with the locations.
    pub locations: String,
}

/// To write the automaton of the zone of a check.
#[derive(Drop)]
pub struct Zone {
    /// The name of the file with the locations.
    pub locations: String,
    /// The name of the file with the specification.
    pub spec: String,
    /// The name of the check.
    pub name: String,
    /// The state limit, from 1 to [`MAX_STATES`].
    pub states: usize,
}

/// To tell which assertions hold of a change.
#[derive(Drop)]
pub struct Rir {
    /// The name of the file with the snapshot before the change.
    pub before: String,
    /// The name of the file with the snapshot after the change.
    pub after: String,
    /// The name of the file with the locations.
    pub locations: String,
    /// The name of the file with the assertions.
    pub assertions: String,
    /// The state limit of each assertion, from 1 to [`MAX_STATES`].
    pub states: usize,
}

/// To write a certificate of the rows of a change that are met.
#[derive(Drop)]
pub struct Certify {
    /// The name of the file with the snapshot before the change.
    pub before: String,
    /// The name of the file with the snapshot after the change.
    pub after: String,
    /// The name of the file with the locations.
    pub locations: String,
    /// The name of the file with the specification.
    pub spec: String,
    /// How many states a construction may have.
    pub states: usize,
}

/// To audit a certificate of a change.
#[derive(Drop)]
pub struct Audit {
    /// The name of the file with the snapshot before the change.
    pub before: String,
    /// The name of the file with the snapshot after the change.
    pub after: String,
    /// The name of the file with the locations.
    pub locations: String,
    /// The name of the file with the specification.
    pub spec: String,
    /// The name of the file with the certificate.
    pub certificate: String,
}

/// To check the change of a layered input that is made.
#[derive(Clone, Copy)]
pub struct Demo {
    /// How many layers the input has, from 1 to [`MAX_LAYERS`].
    pub layers: usize,
}

/// What the words ask for.
#[derive(Drop)]
pub enum Command {
    /// `check [--states N] [--blame] BEFORE AFTER LOCATIONS SPEC`
    Check(Check),
    /// `fmt SPEC`
    Fmt(Fmt),
    /// `fib TABLES OTHER LOCATIONS`
    Fib(Fib),
    /// `zone [--states N] LOCATIONS SPEC NAME`
    Zone(Zone),
    /// `rir [--states N] BEFORE AFTER LOCATIONS ASSERTIONS`
    Rir(Rir),
    /// `certify [--states N] BEFORE AFTER LOCATIONS SPEC`
    Certify(Certify),
    /// `audit BEFORE AFTER LOCATIONS SPEC CERT`
    Audit(Audit),
    /// `demo N`
    Demo(Demo),
}
