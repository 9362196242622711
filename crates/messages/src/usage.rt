//! The usage text.

use itoa::Buffer;
use std::io::Write;
use terms::{PartForm, WriteFault, command_forms, write_bytes, write_pieces};

/// The version of the program.
pub const VERSION: &str = "0.14.0";

/// The usage of a run: its first word, and the rest.
struct RunForm {
    name: &'static str,
    rest: &'static str,
}

/// The runs of the program.
const RUNS: [RunForm; 11] = [
    RunForm {
        name: "file",
        rest: "LIBRARY KEY WORD ...",
    },
    RunForm {
        name: "import",
        rest: "LIBRARY COPIES",
    },
    RunForm {
        name: "import",
        rest: "--check COPIES",
    },
    RunForm {
        name: "report",
        rest: "LIBRARY overdue BRANCH",
    },
    RunForm {
        name: "report",
        rest: "LIBRARY till DAY",
    },
    RunForm {
        name: "report",
        rest: "LIBRARY shelf BRANCH",
    },
    RunForm {
        name: "audit",
        rest: "LIBRARY",
    },
    RunForm {
        name: "audit",
        rest: "LIBRARY all",
    },
    RunForm {
        name: "migrate",
        rest: "LIBRARY",
    },
    RunForm {
        name: "serve",
        rest: "LIBRARY PORT WORKERS EACH DESKKEY",
    },
    RunForm {
        name: "send",
        rest: "PORT DESKKEY KEY WORD ...",
    },
];

fn write_run<W: Write>(writer: &mut W, run: &RunForm) -> Result<(), WriteFault> {
    write_pieces(
        writer,
        &[
            b"usage: circ ",
            run.name.as_bytes(),
            b" ",
            run.rest.as_bytes(),
            b"\n",
        ],
    )
}

/// Writes a command's name and its parts.
pub(crate) fn write_form<W: Write>(
    writer: &mut W,
    name: &str,
    parts: &[PartForm],
) -> Result<(), WriteFault> {
    write_bytes(writer, name.as_bytes())?;
    for part in parts {
        write_pieces(writer, &[b" <", part.name.as_bytes(), b">"])?;
    }
    write_bytes(writer, b"\n")
}

/// Writes the usage of the runs with this first word. Returns whether there are any.
pub fn write_usage_of<W: Write>(writer: &mut W, name: &str) -> Result<bool, WriteFault> {
    let mut is_there = false;
    for run in &RUNS {
        if run.name == name {
            write_run(writer, run)?;
            is_there = true;
        }
    }
    Ok(is_there)
}

/// Writes the usage of all runs and commands, the version and the library schema.
pub fn write_usage<W: Write>(writer: &mut W, schema: u32) -> Result<(), WriteFault> {
    for run in &RUNS {
        write_run(writer, run)?;
    }
    write_bytes(writer, b"WORD ... is one of\n")?;
    for form in command_forms() {
        write_bytes(writer, b"  ")?;
        write_form(writer, form.name, form.parts)?;
    }
    write_version(writer, schema)
}

/// Writes the version and the library schema.
pub fn write_version<W: Write>(writer: &mut W, schema: u32) -> Result<(), WriteFault> {
    write_pieces(
        writer,
        &[
            b"circ ",
            VERSION.as_bytes(),
            b", schema ",
            Buffer::new().format(schema).as_bytes(),
            b"\n",
        ],
    )
}
