// Stores in files.
ghost use Rattle.std.specs.Prelude.{◌≡◌};
ghost use Rattle.run_rerun_cli.specs.InFiles.{file_faults};

use crate::counted_source::CountedSource;
use crate::stores::Stores;
use run_capture::{Failed, StdSource};
use std::fs;
use std::fs::Files;

/// The files of std as stores: a name is a path, and nothing is told of what a file has. That what is read of a file is
/// what it has, and that a path names one file, no clause says.
#[derive(Drop)]
pub struct FileStores<'a, R: Files> {
    rt: &'a R,
    faults: u64,
}

impl<'a, R: Files> FileStores<'a, R> {
    /// Files that have not failed.
    pub fn new(rt: &'a R) -> Self
        ensures { file_faults result ≡ 0 }
    {
        FileStores { rt, faults: 0 }
    }
}

impl<'a, R: Files> Stores for FileStores<'a, R> {
    type Src = CountedSource<StdSource<R::File>>;

    ghost use Rattle.std.specs.Prelude.{⊤, None};
    ghost use Rattle.run_rerun_cli.specs.InFiles.{file_faults};

    ghost bytes = { λ _ _. None };

    ghost faults = { file_faults };

    ghost did = { λ _ _. ⊤ };

    fn open_store(&mut self, name: &str) -> Result<CountedSource<StdSource<R::File>>, Failed> {
        match fs::open(self.rt, name) {
            Ok(file) => Ok(CountedSource::new(StdSource::new(file))),
            Err(_) => {
                self.faults = self.faults.saturating_add(1);
                Err(Failed)
            }
        }
    }

    fn give_back(&mut self, src: CountedSource<StdSource<R::File>>) {
        if src.has_failed() {
            self.faults = self.faults.saturating_add(1);
        }
    }
}
