// The keys of a model line: found by their words, and the record without any of them given.
#![tactic(auto)]

ghost use Rattle.std.specs.Prelude.{◌≡◌};
ghost use Rattle.keys.specs.Keys.{IsNumberOf, defaults, packed_keys, key_lengths};

// How many keys there are, and the numbers of a record of version 2.
pub const KEYS: usize = 21;

const WORDS: usize = 24;

// The words of the polarities: +1 and -1.
pub const PLUS_ONE: u64 = 0x3ff0000000000000;

pub const MINUS_ONE: u64 = 0xbff0000000000000;

// The keys as numbers, in the record's order: the first byte is the lowest.
const PACKED: [u64; KEYS] = [
    0x746c756d,
    0x7369,
    0x6b69,
    0x6662,
    0x69626978,
    0x666269,
    0x666c6d,
    0x697262,
    0x737369,
    0x73736369,
    0x736b69,
    0x786c626372,
    0x696c626372,
    0x6275737865,
    0x65766174636f,
    0x6c6576656c,
    0x726269,
    0x726c76,
    0x6572,
    0x636272,
    0x636372,
];

// How many bytes each key has.
const LENGTHS: [usize; KEYS] = [
    4, 2, 2, 2, 4, 3, 3, 3, 3, 4, 3, 5, 5, 5, 6, 5, 3, 3, 2, 3, 3,
];

// What each number is where its key is not given; then polarity +1 and the spare words.
const DEFAULTS: [u64; WORDS] = [
    0x3ff0000000000000,
    0x3c795d4100811d0c,
    0x3fb999999999999a,
    0x406ae00000000000,
    0,
    0x3ce851c6b01eb437,
    0x4000000000000000,
    0x401c000000000000,
    0x3c8bab8cbabb6581,
    0,
    0x3f30624dd2f1a9fc,
    0,
    0,
    0,
    0,
    0x407f800000000000,
    0x3cd203af9ee75616,
    0x3fc999999999999a,
    0x4014000000000000,
    0x4037000000000000,
    0x4028000000000000,
    PLUS_ONE,
    0,
    0,
];

// The keys as numbers: had once for many words, and lent.
#[derive(Drop)]
pub struct PackedKeys {
    pub numbers: [u64; KEYS],
    pub ghost value: { numbers ≡ packed_keys },
}

pub fn packed() -> PackedKeys
    ensures { result.numbers ≡ packed_keys }
{
    PackedKeys { numbers: PACKED }
}

pub fn lengths() -> [usize; KEYS]
    ensures { result ≡ key_lengths }
{
    LENGTHS
}

pub fn defaults() -> [u64; WORDS]
    ensures { result ≡ defaults }
{
    DEFAULTS
}

// The number of the key with that word.
pub fn number_of(packed: &PackedKeys, word: &[u8]) -> Option<usize>
    ensures { IsNumberOf word.now result }
{
    let x = packing::packed(word);
    packed.numbers.iter().position(|key| x == *key)
}
