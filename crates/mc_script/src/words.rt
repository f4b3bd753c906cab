ghost use Rattle.std.specs.Prelude.{◌≡◌};
ghost use Rattle.mc_script.specs.Words.{is_name};

pub fn is_file_name(word: &str) -> bool
    ensures { result ≡ is_name word.now }
{
    match word.as_bytes() {
        [] => false,
        [first, ..] => *first != b'-',
    }
}
