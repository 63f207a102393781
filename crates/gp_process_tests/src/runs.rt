//! The runs: their words and inputs.

/// A run of the program: its name with the words after it, and its input.
pub type Run<'a> = (&'a [u8], &'a [u8]);

/// One put in one single round.
pub const ONE_PUT: &[u8] = b"\
nodes 3 1 2
offer p0 put a 5
begin c0 1 single
take c0 0
take a0 1
take a1 1
take c0 2
take c0 3
take a0 4
take a1 4
take l0 5
take l0 6
";

const ONE_DEPOSIT: &[u8] = b"\
nodes 3 1 1
offer p0 deposit a 5
";

const NO_EVENT: &[u8] = b"\
nodes 3 1 1
--
l0 learned 0: -
l0 state: -
l0 replies: -
events 0 messages 0
";

/// Runs that use no file.
pub static WITHOUT_FILES: [Run<'static>; 9] = [
    (b"mcgp", b""),
    (b"mcgp log 12", b""),
    (b"mcgp play 5", ONE_PUT),
    (b"mcgp \xff", ONE_PUT),
    (b"mcgp play", b"nodes 3 1\n"),
    (b"mcgp play", ONE_PUT),
    (b"mcgp bank", ONE_DEPOSIT),
    (b"mcgp audit", NO_EVENT),
    (b"mcgp drive 3 1 2", b""),
];

/// Upgrades of a log of version 2 and of one of version 1.
pub static UPGRADES: [Run<'static>; 2] = [(b"mcgp upgrade 3", b""), (b"mcgp upgrade 4", b"")];

/// Runs with texts that are not known before: of random numbers, and of nodes in threads.
pub static WITH_ANY_TEXT: [Run<'static>; 2] = [
    (b"mcgp sim 7 96", b""),
    (b"mcgp run", b"nodes 3 1 1\n"),
];

/// A log where there is no file.
pub static NEW_LOG: Run<'static> = (b"mcgp log 3", b"");
