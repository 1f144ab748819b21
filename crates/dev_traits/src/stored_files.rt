//! The files of a store in memory.

ghost use Rattle.std.specs.Prelude.{◌≡◌, map, MatchOption, None};
ghost use Rattle.dev_traits.specs.Files.{file_named};
ghost use Rattle.dev_traits.specs.StoredFiles.{named, file_at, IsPlaced};

/// A file with its name.
#[derive(Drop)]
pub struct StoredFile {
    pub name: String,
    pub bytes: Vec<u8>,
}

/// The place of the first file of this name.
pub fn place_of(files: &[StoredFile], name: &str) -> Option<usize>
    ensures { MatchOption result (file_named (map named files.now) name.now ≡ None)
        (λ at. IsPlaced files.now at × ((file_at files.now at).name ≡ name.now)) }
{
    for at in 0..files.len() {
        if files[at].name.as_str() == name {
            return Some(at);
        }
    }
    None
}
