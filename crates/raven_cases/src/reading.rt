//! From the text of a file to its cases.
use crate::case::{Case, CaseDoor, Ends, Run};
use crate::fault::LineFault;
use crate::marks::write_out;
use crate::values::{arguments_in, clock_in, number_in, numbers_in, row_in, text_in};
use raven_base::{Numbers, Sequence};
use raven_ports::{KeptRow, MemKeeper, etags_rise};
use std::alloc::Global;
use std::mem;

/// Why a file gives no cases.
#[derive(Clone, Copy, Debug, PartialEq, Eq)]
pub enum ReadError {
    /// A line does not follow the format. Lines are counted from 1.
    Mistake { line: u64 },

    NoMemory,
}

/// The cases of a file.
pub fn read_cases(alloc: Global, file: &[u8]) -> Result<Vec<Case>, ReadError> {
    let mut reader = Reader {
        cases: Vec::new(alloc),
        draft: None,
    };
    let mut line = 0_u64;
    for text in file.split(|byte| *byte == b'\n') {
        line = line.saturating_add(1);
        reader.read(alloc, text).map_err(|fault| at(fault, line))?;
    }
    reader.finish().map_err(|fault| at(fault, line))?;
    Ok(reader.cases)
}

fn at(fault: LineFault, line: u64) -> ReadError {
    match fault {
        LineFault::Mistake => ReadError::Mistake { line },
        LineFault::NoMemory => ReadError::NoMemory,
    }
}

/// What was read so far.
#[derive(Drop)]
struct Reader {
    cases: Vec<Case>,

    /// The case that is being read.
    draft: Option<Draft>,
}

impl Reader {
    fn read(&mut self, alloc: Global, line: &[u8]) -> Result<(), LineFault> {
        let line = str::from_utf8(line).map_err(|_| LineFault::Mistake)?;
        if line.is_empty() || line.starts_with('#') {
            return Ok(());
        }
        let (word, value) = line.split_once(' ').unwrap_or((line, ""));
        if word == "==" {
            self.finish()?;
            self.draft = Some(Draft::new(alloc, value)?);
            return Ok(());
        }
        match &mut self.draft {
            Some(draft) => draft.read(alloc, word, value),
            None => Err(LineFault::Mistake),
        }
    }

    /// Adds the case that was read, if there is one.
    fn finish(&mut self) -> Result<(), LineFault> {
        if let Some(draft) = self.draft.take() {
            self.cases.push(draft.finish()?)?;
        }
        Ok(())
    }
}

/// A case of which not all lines are read.
#[derive(Drop)]
struct Draft {
    name: String,

    /// The rows that the keeper holds at the start.
    rows: Vec<KeptRow>,

    /// The calls of the keeper that fail, counted from 1.
    keeps: Numbers,

    /// The runs before the last.
    runs: Vec<Run>,

    /// The last run so far.
    run: Run,
}

impl Draft {
    fn new(alloc: Global, name: &str) -> Result<Draft, LineFault> {
        Ok(Draft {
            name: String::from_str(alloc, name)?,
            rows: Vec::new(alloc),
            keeps: Numbers::new(alloc),
            runs: Vec::new(alloc),
            run: new_run(alloc)?,
        })
    }

    fn finish(self) -> Result<Case, LineFault> {
        let rows = Sequence::of(self.rows);
        if !etags_rise(rows.as_slice()) {
            return Err(LineFault::Mistake);
        }
        let mut runs = self.runs;
        runs.push(self.run)?;
        Ok(Case {
            name: self.name,
            keeper: MemKeeper::of(rows, self.keeps),
            runs,
        })
    }

    fn read(&mut self, alloc: Global, word: &str, value: &str) -> Result<(), LineFault> {
        if let Some(copies) = word.strip_prefix('>') {
            return self.add_lines(alloc, copies, value, b"\n");
        }
        if let Some(copies) = word.strip_prefix('<') {
            return self.add_lines(alloc, copies, value, b"\r\n");
        }
        match word {
            "arguments" => self.run.arguments = arguments_in(alloc, value)?,
            "clock" => self.run.clock = clock_in(value)?,
            "reads" => self.ends()?.reads = numbers_in(alloc, value)?,
            "writes" => self.ends()?.writes = numbers_in(alloc, value)?,
            "rows" if value.is_empty() => self.run.shows_rows = true,
            "gives" => self.run.gives = number_in(value)? as usize,
            "crew" => self.run.crew = numbers_in(alloc, value)?,
            "|" => write_out(alloc, &mut self.ends()?.bytes, value, None)?,
            "again" if value.is_empty() => self.begin_run(alloc)?,
            _ => self.read_outside(alloc, word, value)?,
        }
        Ok(())
    }

    /// Reads what the doors of the run are, or what the keeper is given.
    fn read_outside(&mut self, alloc: Global, word: &str, value: &str) -> Result<(), LineFault> {
        match word {
            "door" if value.is_empty() => self.run.doors.push(new_door(alloc))?,
            "accepts" => self.last_door()?.accepts = numbers_in(alloc, value)?,
            "connection" if value.is_empty() => self.last_door()?.conns.push(new_ends(alloc))?,
            _ if self.runs.is_empty() => self.read_kept(alloc, word, value)?,
            _ => return Err(LineFault::Mistake),
        }
        Ok(())
    }

    fn last_door(&mut self) -> Result<&mut CaseDoor, LineFault> {
        self.run.doors.last_mut().ok_or(LineFault::Mistake)
    }

    /// The connection that was begun last, or without a door the input and the output.
    fn ends(&mut self) -> Result<&mut Ends, LineFault> {
        match self.run.doors.last_mut() {
            Some(door) => door.conns.last_mut().ok_or(LineFault::Mistake),
            None => Ok(&mut self.run.ends),
        }
    }

    /// Adds one line with this end to the bytes for `>`, and three numbered ones for `>3`.
    fn add_lines(
        &mut self,
        alloc: Global,
        copies: &str,
        line: &str,
        end: &[u8],
    ) -> Result<(), LineFault> {
        if copies.is_empty() {
            return self.add_line(alloc, line, end, None);
        }
        for number in 1..=number_in(copies)? {
            self.add_line(alloc, line, end, Some(number))?;
        }
        Ok(())
    }

    fn add_line(
        &mut self,
        alloc: Global,
        line: &str,
        end: &[u8],
        number: Option<u64>,
    ) -> Result<(), LineFault> {
        let bytes = &mut self.ends()?.bytes;
        write_out(alloc, bytes, line, number)?;
        bytes.extend_from_slice(end)?;
        Ok(())
    }

    fn begin_run(&mut self, alloc: Global) -> Result<(), LineFault> {
        let run = mem::replace(&mut self.run, new_run(alloc)?);
        self.runs.push(run)?;
        Ok(())
    }

    /// Reads what the keeper is given, which comes before the first `again`.
    fn read_kept(&mut self, alloc: Global, word: &str, value: &str) -> Result<(), LineFault> {
        match word {
            "keeps" => self.keeps = numbers_in(alloc, value)?,
            "row" => self.rows.push(row_in(alloc, value)?)?,
            "id" => self.last_row()?.id = text_in(alloc, value)?,
            "collection" => self.last_row()?.collection = text_in(alloc, value)?,
            "body" => self.last_row()?.body = Some(text_in(alloc, value)?),
            _ => return Err(LineFault::Mistake),
        }
        Ok(())
    }

    fn last_row(&mut self) -> Result<&mut KeptRow, LineFault> {
        self.rows.last_mut().ok_or(LineFault::Mistake)
    }
}

/// A run without any line of its own.
fn new_run(alloc: Global) -> Result<Run, LineFault> {
    Ok(Run {
        arguments: arguments_in(alloc, "run")?,
        clock: clock_in("0")?,
        ends: new_ends(alloc),
        gives: usize::MAX,
        crew: Numbers::new(alloc),
        doors: Vec::new(alloc),
        shows_rows: false,
    })
}

fn new_door(alloc: Global) -> CaseDoor {
    CaseDoor {
        accepts: Numbers::new(alloc),
        conns: Vec::new(alloc),
    }
}

fn new_ends(alloc: Global) -> Ends {
    Ends {
        reads: Numbers::new(alloc),
        writes: Numbers::new(alloc),
        bytes: Vec::new(alloc),
    }
}
