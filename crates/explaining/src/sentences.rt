// The sentence for each refusal, and the ends of each branch.
ghost use Rattle.std.specs.Prelude.{◌≡◌};
ghost use Rattle.explaining.specs.Sentences.{sentence_of, ends_of};

use crate::table::line;

// The sentence of a refusal's number; nothing for a number that none has.
pub(crate) fn sentence(n: u64) -> &'static [u8]
    ensures { result.now ≡ sentence_of n }
{
    line(
        b"\n\
the library, record or list has not the shape asked for; look at its length, count and version\n\
this is no name; give one of 1 to 16 visible characters, none of them a space\n\
a name stands twice; give one of the two cards another\n\
no card has this name; look at its spelling, or take the library or load the card that has it\n\
a buffer that was lent is too short; lend a longer one\n\
a number of the card is infinite, or is none; have the card made anew\n\
the card's LEVEL is not 504; take a card that was made for that level\n\
EXSUB is neither 0 nor 1, the polarity neither 1 nor -1, or a spare word is not 0; correct the card\n\
the octave is not a whole number of nanovolts from 10,000,000 to 50,000,000; correct the card\n\
a value worked from the card, its V_Lr or a node's total would be out of reach; correct the number\n\
no place is free, of 16 for cards and 64 for transistors; withdraw a card or lift a transistor\n\
there is no such card or transistor; look at the numbers that loading and placing answered\n\
a node is not one of 0 to 31, is missing, or goes beyond 2,500,000 microvolts; correct the number\n\
C4 is not where C1 is, or C3 not where C4 is, with no resistor between; place the two on one node\n\
a T would pass 8 amperes, or branch 8 its range; lower its drive or share the load\n\
a transistor stands on this card; lift it first\n\
all 65,535 numbers have been given; begin a fresh board\n\
an injection term would pass 2^20; lower its drive, or look at the knee current\n\
I_CSs is below 0, as older libraries had it; mend the library, or give I_CSs its value\n\
a key of the model line is none, or stands twice; look at its spelling, or leave one out\n\
a number is not written as in model lines, or cannot be; use up to 15 digits, a power of -22 to 22\n\
the model line does not give its octave; add octave= and a whole number of nanovolts\n\
this is no model line; write .model, a name, npn or pnp, and KEY=NUMBER words\n\
",
        n,
    )
}

// From where to where a branch goes, by its number; nothing for a number that none has.
pub(crate) fn ends(branch: u64) -> &'static [u8]
    ensures { result.now ≡ ends_of branch }
{
    line(
        b"\n\
, C2 to E1\n\
, B2 to E1\n\
, B1 to E1\n\
, B2 to E1\n\
, B1 to C4\n\
, B1 to S\n\
, S to C1\n\
, B1 to C4\n\
, E to E1\n\
, B to B1\n\
, C to C3\n\
, C3 to C4\n\
, C4 to C1\n\
",
        branch,
    )
}
