//! The table of the program's commands: the words behind the name of each, and what `--help` says of them.

/// A word behind the name of a command, and what it stands for.
#[derive(Clone, Copy)]
pub enum Word {
    /// A word in its place, which may not be left out.
    Required(&'static str, &'static str),
    /// A word in its place, which may be left out.
    Optional(&'static str, &'static str),
    /// One word or more, in the last place.
    Several(&'static str, &'static str),
    /// `--NAME VALUE`, which may be left out.
    WithValue(&'static str, &'static str, &'static str),
    /// `--NAME VALUE`, which may be left out or stand more than once.
    Each(&'static str, &'static str, &'static str),
    /// `--NAME`, which may be left out.
    Flag(&'static str, &'static str),
}

/// A command of the program.
#[derive(Clone, Copy)]
pub struct CommandEntry {
    pub name: &'static str,
    pub words: &'static [Word],
    /// What it does.
    pub help: &'static str,
}

const SCRIPT: Word = Word::Required("SCRIPT", "a file with a script");

const CERT: Word = Word::Required("CERT", "a file with a certificate");

const CARD: Word = Word::Required("CARD", "a file with the description of a card");

const IMAGE: Word = Word::Required(
    "IMAGE",
    "a file with the blocks of the card, or new: and a number of blocks of zeros",
);

const SCHEDULE: Word = Word::Optional(
    "SCHEDULE",
    "a file with a digit from 0 to 7 for each event: what the card does there",
);

const IN: Word = Word::WithValue(
    "in",
    "FILE",
    "the blocks that the script gives, a whole number of them",
);

const OUT: Word = Word::WithValue(
    "out",
    "FILE",
    "the file that takes the blocks that the script receives",
);

const KIND: Word = Word::Required("KIND", "sd or emmc");

const JSON: Word = Word::Flag("json", "prints an object of JSON a line");

/// The commands of the program, in the order in which `--help` names them.
pub static COMMANDS: [CommandEntry; 12] = [
    CommandEntry {
        name: "frame",
        words: &[
            Word::Required("INDEX", "the index of a command, from 0 to 63"),
            Word::Required("ARG", "its argument, from 0 to 4294967295"),
        ],
        help: "prints the frame of a command",
    },
    CommandEntry {
        name: "verify",
        words: &[
            Word::Several("FILE", "files with scripts"),
            JSON,
            Word::Flag("no-run", "looks for no run that breaks a refused script"),
            Word::WithValue(
                "save",
                "DIR",
                "the folder that takes the card and the schedule of each run",
            ),
            Word::Each(
                "allow",
                "KIND",
                "a kind of warnings that are left out, as a comment # allow: KIND leaves out those of its line",
            ),
        ],
        help: "prints all that is wrong with scripts, and what accepted ones leave open",
    },
    CommandEntry {
        name: "certify",
        words: &[SCRIPT],
        help: "prints the certificate of a script",
    },
    CommandEntry {
        name: "check",
        words: &[SCRIPT, CERT],
        help: "prints the certified bound on the commands of a run",
    },
    CommandEntry {
        name: "run",
        words: &[
            SCRIPT,
            CERT,
            CARD,
            IMAGE,
            SCHEDULE,
            IN,
            OUT,
            Word::WithValue(
                "registers",
                "FILE",
                "the file that takes the bytes of the registers that come, one after another",
            ),
        ],
        help: "runs the script beside a simulated card",
    },
    CommandEntry {
        name: "batch",
        words: &[
            KIND,
            Word::Required(
                "REQUESTS",
                "read FIRST COUNT and write FIRST COUNT, as one word",
            ),
        ],
        help: "prints a script that serves requests",
    },
    CommandEntry {
        name: "explain",
        words: &[
            SCRIPT,
            Word::Optional("CERT", "a file with a certificate"),
            Word::Flag("why", "prints only why the script is refused"),
            Word::Flag(
                "dot",
                "prints the graph of the script in the language of Graphviz",
            ),
            Word::Flag("no-faults", "leaves out the statements that end in a fault"),
        ],
        help: "prints what is known at each statement, and why the script or the certificate is refused",
    },
    CommandEntry {
        name: "emit",
        words: &[
            SCRIPT,
            CERT,
            Word::Required("NAME", "an identifier of C, the name of the array"),
            Word::WithValue(
                "binary",
                "FILE",
                "the file that takes the words of the table as bytes",
            ),
        ],
        help: "prints the table of a script in C",
    },
    CommandEntry {
        name: "audit",
        words: &[
            KIND,
            Word::Required("TRACE", "a file with a trace, as sdv run prints it"),
            JSON,
            Word::Flag("annotate", "prints each line of the trace too"),
            Word::Flag(
                "running",
                "the trace begins in a running system: the card is in any state",
            ),
            Word::WithValue(
                "script",
                "SCRIPT",
                "the script of the trace: prints which statement each line is of, and what it means",
            ),
            Word::WithValue(
                "registers",
                "FILE",
                "the file with the bytes of the registers that came, as sdv run keeps them",
            ),
            Word::Flag(
                "svg",
                "prints a sequence diagram of host and card, as a picture in SVG",
            ),
        ],
        help: "prints where the host or the card of a trace leaves the rules",
    },
    CommandEntry {
        name: "drive",
        words: &[
            SCRIPT,
            CERT,
            IN,
            OUT,
            Word::WithValue("trace", "FILE", "the file that takes the trace of the run"),
            Word::Flag(
                "plain",
                "prints commands without the data phases that follow them",
            ),
        ],
        help: "runs the script over lines: requests are printed, and answers read",
    },
    CommandEntry {
        name: "card",
        words: &[
            CARD,
            Word::Optional(
                "IMAGE",
                "a file with the blocks of the card, or new: and a number of blocks of zeros",
            ),
            SCHEDULE,
            Word::Flag(
                "describe",
                "prints the description in words, or the line that is wrong; no IMAGE stands there",
            ),
        ],
        help: "answers such requests by a simulated card",
    },
    CommandEntry {
        name: "try",
        words: &[
            SCRIPT,
            CARD,
            IMAGE,
            Word::Optional(
                "SCHEDULE",
                "a file with a digit from 0 to 7 for each event, or with mishaps by name: what the card does there",
            ),
            IN,
            OUT,
            Word::Flag("each", "prints how each run with one mishap ends"),
            Word::Each(
                "card",
                "CARD",
                "one more card for these runs, over blocks of zeros",
            ),
            Word::WithValue(
                "only",
                "wrong",
                "of these runs those alone that come to what is not allowed",
            ),
            JSON,
            Word::Flag(
                "lines",
                "the trace says where the host changes its data lines",
            ),
        ],
        help: "runs any script beside a simulated card, and stops before what is not allowed there",
    },
];
