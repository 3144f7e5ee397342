//! The text for a call, by its status, its command and the number on its fault line.

/// The text at a status, before and after the number. If nothing comes after it, the number is left out.
pub struct Row {
    status: u8,
    /// The command, or nothing for any.
    command: &'static str,
    /// The number, or nothing for any.
    number: &'static str,
    pub front: &'static str,
    pub behind: &'static str,
}

/// The first row that fits a call is its text.
const ROWS: &[Row] = &[
    Row {
        status: 2,
        command: "load",
        number: "0",
        front: "request: its first line is not that of a dump",
        behind: "",
    },
    Row {
        status: 2,
        command: "load",
        number: "",
        front: "request: object ",
        behind: " cannot follow in the dump, or the input ends too early or too late",
    },
    Row {
        status: 2,
        command: "batch",
        number: "",
        front: "request: request ",
        behind: " is not a put or del of a name after the one before, \
            or the input ends within it or is too long",
    },
    Row {
        status: 2,
        command: "desk",
        number: "",
        front: "request: event ",
        behind: " is not an event, or the input ends within it",
    },
    Row {
        status: 5,
        command: "load",
        number: "64",
        front: "taken: it has ",
        behind: " bytes, and a dump is loaded only into an empty file; \
            an interrupted format leaves as many: it can be removed",
    },
    Row {
        status: 5,
        command: "load",
        number: "",
        front: "taken: it has ",
        behind: " bytes, and a dump is loaded only into an empty file",
    },
    Row {
        status: 5,
        command: "",
        number: "64",
        front: "taken: it has ",
        behind: " bytes, and only an empty file is formatted; \
            an interrupted format leaves as many: it can be removed",
    },
    Row {
        status: 5,
        command: "",
        number: "",
        front: "taken: it has ",
        behind: " bytes, and only an empty file is formatted",
    },
    Row {
        status: 10,
        command: "",
        number: "",
        front: "memory: out of memory",
        behind: "",
    },
    Row {
        status: 11,
        command: "",
        number: "",
        front: "budget: the limit of 4294967296 requests or events is reached",
        behind: "",
    },
    Row {
        status: 13,
        command: "batch",
        number: "",
        front: "damaged: the batch that it keeps doesn't match its digest",
        behind: "",
    },
    Row {
        status: 13,
        command: "",
        number: "",
        front: "damaged: the bytes of the object don't match its digest",
        behind: "",
    },
    Row {
        status: 14,
        command: "load",
        number: "",
        front: "too-many-names: the dump has ",
        behind: " objects, and NAMES is less",
    },
    Row {
        status: 14,
        command: "",
        number: "",
        front: "too-many-names: it has ",
        behind: " objects, more than a table with digests has room for",
    },
    Row {
        status: 15,
        command: "",
        number: "",
        front: "worn: it was saved as often as a file can be",
        behind: "",
    },
    Row {
        status: 16,
        command: "",
        number: "",
        front: "no-batch: its object !batch is not a batch",
        behind: "",
    },
    Row {
        status: 17,
        command: "",
        number: "",
        front: "unfit: request ",
        behind: " of the batch removes a name that isn't there, or there is no room for its name",
    },
];

impl Row {
    /// Whether a call ended so.
    fn fits(&self, status: u8, command: &str, number: &str) -> bool {
        self.status == status
            && (self.command.is_empty() || self.command == command)
            && (self.number.is_empty() || self.number == number)
    }
}

/// What is said of a call, if there is a row that it fits.
pub fn row_of(status: u8, command: &str, number: &str) -> Option<&'static Row> {
    for row in ROWS {
        if row.fits(status, command, number) {
            return Some(row);
        }
    }
    None
}
