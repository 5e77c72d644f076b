ghost use Rattle.std.specs.Prelude.{◌≡◌, map, option_copied, slice_get};

use std::marker::Model;

/// The files of a session, each as its bytes. They are numbered from 0 on.
#[derive(Debug, Drop)]
pub struct Files {
    files: Vec<Vec<u8>>,
}

impl Model for Files {
    ghost use Rattle.std.specs.Prelude.{ℕ, List, map};

    ghost Value = { List (List ℕ) };

    ghost view = { λ a. map (λ file. file.items) a.files.items };
}

impl Files {
    pub fn new(files: Vec<Vec<u8>>) -> Files
        ensures { result ≡ map (λ file. file.items) files.items }
    {
        Files { files }
    }

    /// The file of this number.
    pub fn get(&self, number: u32) -> Option<&[u8]>
        ensures { option_copied result ≡ slice_get self.now number }
    {
        Some(self.files.get(number as usize)?.as_slice())
    }
}
