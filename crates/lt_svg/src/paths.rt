// Names of files.
ghost use Rattle.std.specs.Prelude.{◌≡◌};
ghost use Rattle.lt_svg.specs.Paths.{base_name};

/// The name of a file without the folders before it.
pub fn base_name(path: &[u8]) -> &[u8]
    ensures { result.now ≡ base_name path.now }
{
    let mut start = 0;
    'letters: for place in 0..path.len() {
        if path[place] == b'/' {
            start = place + 1;
        }
    }
    &path[start..]
}
