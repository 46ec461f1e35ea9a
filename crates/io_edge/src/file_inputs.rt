ghost use Rattle.std.specs.Prelude.{◌≡◌};

use crate::inputs::{Inputs, OpenFailed, ReadFailed};
use std::fs;
use std::io::{ErrorKind, Read};
use std::marker::Model;
use std::rt::Files;

/// The files of the system, by their paths.
///
/// A path has to be UTF-8 text; any other cannot be opened, which counts as a failed call. A folder
/// is opened, and fails when it is read.
#[derive(Drop)]
pub struct FileInputs<'a, R: Files> {
    files: &'a R,
    file: Option<R::File>,
    opens: u64,
    faults: u64,
}

impl<'a, R: Files> Model for FileInputs<'a, R> {
    ghost use Rattle.io_edge.specs.Outside.{InputsOutside};

    ghost Value = { InputsOutside };

    ghost view = { λ a. record { opens = a.opens; faults = a.faults } };
}

impl<'a, R: Files> FileInputs<'a, R> {
    /// Opens and reads by `files`. No file is open yet.
    pub fn new(files: &'a R) -> Self
        ensures { result ≡ record { opens = 0; faults = 0 } }
    {
        FileInputs {
            files,
            file: None,
            opens: 0,
            faults: 0,
        }
    }
}

impl<R: Files> Inputs for FileInputs<'_, R> {
    ghost use Rattle.std.specs.Prelude.{None};

    ghost store = { λ _. None };

    ghost left = { λ _. None };

    ghost faults = { λ s. s.faults };

    ghost opens = { λ s. s.opens };

    fn open(&mut self, name: &[u8]) -> Result<bool, OpenFailed> {
        self.opens = self.opens.saturating_add(1);
        self.file = None;
        match open_path(self.files, name) {
            Ok(file) => {
                self.file = file;
                Ok(self.file.is_some())
            }
            Err(failed) => {
                self.faults = self.faults.saturating_add(1);
                Err(failed)
            }
        }
    }

    fn read(&mut self, buf: &mut [u8]) -> Result<usize, ReadFailed> {
        let Some(file) = &mut self.file else {
            return Ok(0);
        };
        match file.read(buf) {
            Ok(n) => Ok(n),
            Err(_) => {
                self.faults = self.faults.saturating_add(1);
                Err(ReadFailed)
            }
        }
    }
}

/// The file at this path, or `None` where there is none.
fn open_path<R: Files>(files: &R, path: &[u8]) -> Result<Option<R::File>, OpenFailed> {
    let Ok(path) = str::from_utf8(path) else {
        return Err(OpenFailed);
    };
    match fs::open(files, path) {
        Ok(file) => Ok(Some(file)),
        Err(e) if e.kind() == ErrorKind::NotFound => Ok(None),
        Err(_) => Err(OpenFailed),
    }
}
