// The options and the commands, as `--help` prints them.
use std::io;

pub fn put_help(rt: &HostRuntime) -> io::Result<()> {
    rt.write_all(
        b"desk [OPTION | SCRIPT] ..\n\
\n\
Obeys the lines of each SCRIPT on a fresh board, one script after the other. - is\n\
standard input, and so is no SCRIPT at all. An option holds for the scripts after it.\n\
\n\
--explain  a line that begins with # after each refusal: what was wrong, what to do\n\
--echo     each line that is answered is repeated before its answer\n\
--poke     lines may poke\n\
--help     prints this, and nothing after it is done\n\
\n\
Commands, one to a line:\n\
\n\
library PATH\n\
find NAME\n\
mend\n\
clip NAME\n\
load NAME\n\
.model NAME TYPE KEY=NUMBER ..\n\
model NAME\n\
record NAME HEX\n\
place CARD E1 B1 B2 C1 C2 C4 S [E B C C3]\n\
move NODE MICROVOLTS\n\
moves NODE MICROVOLTS NODE MICROVOLTS ..\n\
lift TRANSISTOR\n\
withdraw CARD\n\
lookup NAME\n\
node NODE\n\
currents TRANSISTOR\n\
who NODE\n\
sum NODE\n\
sheet\n\
poke NODE MICROVOLTS TICKS\n",
    )
}
