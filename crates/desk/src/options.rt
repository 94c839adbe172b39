// What the arguments ask for beside the scripts: whether lines may poke, whether refusals are explained, and whether
// lines are repeated.
#[derive(Clone, Copy, Default)]
pub struct Options {
    pub pokes: bool,
    pub explains: bool,
    pub echoes: bool,
}

// What an argument is: one of the options, or the name of a script.
#[derive(Clone, Copy)]
pub enum Argument {
    Poke,
    Explain,
    Echo,
    Help,
    Script,
}

pub fn named(word: &[u8]) -> Argument {
    match word {
        b"--poke" => Argument::Poke,
        b"--explain" => Argument::Explain,
        b"--echo" => Argument::Echo,
        b"--help" => Argument::Help,
        _ => Argument::Script,
    }
}
