//! A folder for a script's files, and the lines of the script.

use crate::parts::{bytes_of, log_of};
use crate::runs::{Output, Program, Run};
use crate::words::{change, words_of};
use crate::wrong::Wrong;
use std::fs;
use std::path::PathBuf;
use testkit::runs::path_of;

/// A log, and its name in scripts.
#[derive(Clone, Copy)]
pub struct Named<'a> {
    pub name: &'a str,
    pub bytes: &'a [u8],
}

/// A folder with the files of a script.
#[derive(Drop)]
struct Stage<'s, P: Program> {
    rt: &'s HostRuntime,
    program: &'s P,
    /// The logs that the script names.
    given: &'s [Named<'s>],
    logs: &'s [Named<'s>],
    folder: PathBuf,
    /// Its path, with what stands between it and a name.
    path: String,
}

/// Plays a script over the program. It can name the logs of both lists.
pub fn play<P: Program>(
    rt: &HostRuntime,
    program: &P,
    given: &[Named<'_>],
    logs: &[Named<'_>],
    script: &str,
) -> Result<(), Wrong> {
    let folder = path_of(rt, program.name(), "stage")?;
    let _ = fs::remove_dir_all(rt, folder.as_path());
    fs::create_dir(rt, folder.as_path())?;
    let path = format!(in rt.alloc(); "{}/", folder.as_str())?;
    let stage = Stage {
        rt,
        program,
        given,
        logs,
        folder,
        path,
    };
    let mut run = None;
    for line in script.lines() {
        let (mark, rest) = line.split_once(' ').unwrap_or((line, ""));
        if mark == "$" {
            end(rt, &run)?;
            run = Some(stage.run(rest)?);
        } else if let Some(started) = &mut run {
            stage.expect(started, mark, rest)?;
        } else {
            stage.prepare(mark, rest)?;
        }
    }
    end(rt, &run)?;
    fs::remove_dir_all(rt, stage.folder.as_path())?;
    Ok(())
}

/// Checks a run, if there is one.
fn end(rt: &HostRuntime, run: &Option<Run>) -> Result<(), Wrong> {
    match run {
        Some(run) => run.check(rt),
        None => Ok(()),
    }
}

impl<P: Program> Stage<'_, P> {
    /// Does what a line says of files.
    fn prepare(&self, mark: &str, rest: &str) -> Result<(), Wrong> {
        let (name, more) = rest.split_once(' ').unwrap_or((rest, ""));
        let path = self.path_of(name)?;
        match mark {
            "file" => fs::write(self.rt, path.as_str(), self.bytes(more)?.as_slice())?,
            "log" => {
                let log = log_of(self.rt, &words_of(self.rt, more)?)?;
                fs::write(self.rt, path.as_str(), log.as_slice())?;
            }
            "text" => fs::write(self.rt, path.as_str(), bytes_of(self.rt, more)?.as_slice())?,
            "link" => fs::hard_link(self.rt, self.path_of(more)?.as_str(), path.as_str())?,
            "folder" => fs::create_dir(self.rt, path.as_str())?,
            "remove" => fs::remove_file(self.rt, path.as_str())?,
            "same" => self.compare(path.as_str(), more, true)?,
            "differ" => self.compare(path.as_str(), more, false)?,
            "none" => self.lack(path.as_str())?,
            "" | "#" => (),
            _ => return Err(Wrong::Line(self.text(mark)?)),
        }
        Ok(())
    }

    /// Takes what a line says of a run, or of files after it.
    fn expect(&self, run: &mut Run, mark: &str, rest: &str) -> Result<(), Wrong> {
        match mark {
            "=" => run.wanted_status = rest.parse::<u8>()?,
            ">" => run.output.expect_line(rest)?,
            "!" => run.errors.expect_line(rest)?,
            ">+" => run.output.expect(&self.bytes(rest)?)?,
            "!+" => run.errors.expect(&self.bytes(rest)?)?,
            ">~" => {
                let is_in = has(&run.output.written, rest.as_bytes());
                run.output.see(self.rt, is_in, rest)?;
            }
            "!~" => run.errors.see_line(self.rt, rest)?,
            ">*" => {
                fs::write(self.rt, self.path_of(rest)?.as_str(), &run.output.written)?;
                run.output.see(self.rt, true, rest)?;
            }
            _ => self.prepare(mark, rest)?,
        }
        Ok(())
    }

    /// Runs the program with these arguments.
    fn run(&self, line: &str) -> Result<Run, Wrong> {
        let mut arguments = Vec::new(self.rt.alloc());
        arguments.push(String::from_str(self.rt.alloc(), self.program.name())?)?;
        for word in &words_of(self.rt, line)? {
            arguments.push(word.replace(self.rt.alloc(), "@", self.path.as_str())?)?;
        }
        let outcome = self.program.run(self.rt, arguments);
        Ok(Run {
            status: outcome.status,
            wanted_status: 0,
            output: Output::new(self.rt, self.shown(outcome.output())?),
            errors: Output::new(self.rt, self.shown(outcome.errors())?),
        })
    }

    /// What is written, with `@` for the folder's path, if it is text.
    fn shown(&self, written: &[u8]) -> Result<Vec<u8>, Wrong> {
        match str::from_utf8(written) {
            Ok(text) => Ok(
                text.replace(self.rt.alloc(), self.path.as_str(), "@")?
                    .into_bytes(),
            ),
            Err(_) => Ok(written.to_vec(self.rt.alloc())?),
        }
    }

    fn text(&self, text: &str) -> Result<String, Wrong> {
        Ok(String::from_str(self.rt.alloc(), text)?)
    }

    fn path_of(&self, name: &str) -> Result<String, Wrong> {
        Ok(format!(in self.rt.alloc(); "{}{name}", self.path.as_str())?)
    }

    /// The bytes that these words mean.
    fn bytes(&self, words: &str) -> Result<Vec<u8>, Wrong> {
        let (name, changes) = words.split_once(' ').unwrap_or((words, ""));
        let mut bytes = match name.strip_prefix("@") {
            Some(file) => fs::read(self.rt, self.path_of(file)?.as_str())?,
            None => self.log(name)?.to_vec(self.rt.alloc())?,
        };
        for word in changes.split_ascii_whitespace() {
            change(&mut bytes, word)?;
        }
        Ok(bytes)
    }

    /// The log of this name.
    fn log(&self, name: &str) -> Result<&[u8], Wrong> {
        for log in self.given {
            if log.name == name {
                return Ok(log.bytes);
            }
        }
        for log in self.logs {
            if log.name == name {
                return Ok(log.bytes);
            }
        }
        Err(Wrong::Log(self.text(name)?))
    }

    /// Checks whether a file has these bytes, or others.
    fn compare(&self, path: &str, words: &str, is_same: bool) -> Result<(), Wrong> {
        let bytes = self.bytes(words)?;
        if (fs::read(self.rt, path)?.as_slice() == bytes.as_slice()) == is_same {
            Ok(())
        } else {
            Err(Wrong::File(self.text(words)?))
        }
    }

    /// Checks that there is no such file.
    fn lack(&self, path: &str) -> Result<(), Wrong> {
        if fs::exists(self.rt, path)? {
            Err(Wrong::File(self.text(path)?))
        } else {
            Ok(())
        }
    }
}

/// Whether these bytes are somewhere in what is written.
fn has(written: &[u8], bytes: &[u8]) -> bool {
    !bytes.is_empty() && written.windows(bytes.len()).any(|part| part == bytes)
}
