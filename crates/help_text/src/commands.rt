//! What `--help COMMAND` prints: one command with its files, what it prints, its exit statuses, and an example.

ghost use Rattle.std.specs.Prelude.{◌≡◌, ◌⊎◌, ◌↔◌, IsSome};
ghost use Rattle.help_text.specs.Commands.{IsVerb};

/// The text of a command, whose first line has its words; none for a name that is none of a command.
pub fn command_help(verb: &str) -> Option<&'static str>
    ensures { IsSome result ↔ IsVerb verb.now }
{
    match verb {
        "run" => Some(RUN),
        "check" => Some(CHECK),
        "fit" => Some(FIT),
        "plan" => Some(PLAN),
        "check-plan" => Some(CHECK_PLAN),
        "impossible" => Some(IMPOSSIBLE),
        "probe" => Some(PROBE),
        "audit" => Some(AUDIT),
        "gen" => Some(GEN),
        _ => None,
    }
}

const RUN: &str = "remux run JOB OUT CERT

Plans the programs that JOB names, writes their stream of constant rate to OUT and a certificate of the plan to CERT.

Files:
  JOB   is read: the text of a job, which names files with programs that are read too (docs/JOB.md)
  OUT   is written: a transport stream of 188-byte packets (docs/OUTPUT.md)
  CERT  is written once OUT is whole: the certificate of the plan (docs/CERTIFICATE.md)

Prints one line of JSON: bound, distortion, nodes, programs, search, slots (docs/JOB.md).

Exit status:
  0  OUT and CERT are whole
  2  the names are empty or two of them alike
  3  the job is refused: the line names the field
  4  a program is refused: the line has its kind and place
  5  not even the smallest versions are scheduled: a shorter slot, coarser versions or a later start may help
  6  JOB or a stream that it names can't be read
  7  OUT, CERT or standard output can't be written
  9  JOB or a stream that it names isn't there
  10 memory is wanting

Example:
  remux gen 1 12 a.ts
  printf 'slot = 4000\\n[[program]]\\nfile = \"a.ts\"\\nprogram = 1\\nnumber = 1\\n' > job.toml
  remux run job.toml out.ts run.cert
";

const CHECK: &str = "remux check JOB CERT

Reads the programs of a job again, and checks that the certificate in CERT shows its bound for them.

Files:
  JOB   is read: the text of the job, and the files with programs that it names (docs/JOB.md)
  CERT  is read: the certificate that `remux run` wrote (docs/CERTIFICATE.md)

Prints one line of JSON: bound, verdict.

Exit status:
  0  the certificate holds: no choice that is scheduled has less distortion than its bound
  2  the names are empty or alike
  3  the job is refused: the line names the field
  4  a program is refused: the line has its kind and place
  6  a file can't be read
  7  standard output can't be written
  8  the certificate is refused: the line has the byte, or the fault and its node
  9  a file isn't there
  10 memory is wanting

Example:
  remux check job.toml run.cert
";

const FIT: &str = "remux fit JOB LIST

Tells in which of the slots in LIST, so at which rates, the programs that JOB names fit in their smallest versions.

Files:
  JOB   is read: the text of the job, and the files with programs that it names (docs/JOB.md)
  LIST  is read: a line for each slot, 64 at most, each a number of ticks from 1016 to 40000 and greater than the one
        before

Prints one line of JSON: fit, the greatest slot in which they fit, and slots, with a verdict on each.

Exit status:
  0  they fit in some slot
  2  the names are empty or alike
  3  the job is refused: the line names the field; or the list is: the line has its first wrong line
  4  a program is refused: the line has its kind and place
  6  a file can't be read
  7  standard output can't be written
  9  a file isn't there
  10 memory is wanting
  12 they fit in none: a shorter slot, coarser versions or a later start may help

Example:
  for rate in 10 8 6; do echo $((40608 / rate)); done > slots.txt
  remux fit job.toml slots.txt
";

const PLAN: &str = "remux plan TABLE CERT

Plans a table of pictures without any stream, and writes a certificate of the plan to CERT.

Files:
  TABLE is read: the text of a table (docs/TABLE.md), such as `remux probe` writes
  CERT  is written: the certificate of the plan (docs/CERTIFICATE.md)

Prints one line of JSON: bound, choice, distortion, nodes, search.

Exit status:
  0  CERT is whole
  2  the names are empty or alike
  3  the table is refused: the line has its first wrong line, or the name of the limit
  5  not even the smallest versions are scheduled: `remux impossible TABLE` tells whether any could be
  6  TABLE can't be read
  7  CERT or standard output can't be written
  9  TABLE isn't there
  10 memory is wanting

Example:
  printf 'remux table 1\\nslot 1080\\nnodes 4\\nevaluations 0\\nprogram 112\\nunit 36936 1840:0\\n' > table.txt
  remux plan table.txt plan.cert
";

const CHECK_PLAN: &str = "remux check-plan TABLE CERT

Checks that the certificate in CERT shows its bound for a table of pictures.

Files:
  TABLE is read: the text of the table (docs/TABLE.md)
  CERT  is read: the certificate that `remux plan` wrote (docs/CERTIFICATE.md)

Prints one line of JSON: bound, verdict.

Exit status:
  0  the certificate holds: no choice that is scheduled has less distortion than its bound
  2  the names are empty or alike
  3  the table is refused: the line has its first wrong line, or the name of the limit
  6  a file can't be read
  7  standard output can't be written
  8  the certificate is refused: the line has the byte, or the fault and its node
  9  a file isn't there
  10 memory is wanting

Example:
  remux check-plan table.txt plan.cert
";

const IMPOSSIBLE: &str = "remux impossible TABLE

Tells of a table of pictures whether its smallest versions are scheduled, or it is shown that no choice of versions is.

Files:
  TABLE is read: the text of the table (docs/TABLE.md)

Prints one line of JSON: verdict, which is scheduled, none or open; with none also due, from, needed and room, the window of
time that has too little room.

Exit status:
  0  there is a verdict
  2  the name is empty
  3  the table is refused: the line has its first wrong line, or the name of the limit
  6  TABLE can't be read
  7  standard output can't be written
  9  TABLE isn't there
  10 memory is wanting

Example:
  printf 'remux table 1\\nslot 4000\\nnodes 1\\nevaluations 0\\nprogram 112\\nunit 27200 552:0\\n' > full.txt
  remux impossible full.txt
";

const PROBE: &str = "remux probe FILE PROGRAM TABLE

Writes the table of the pictures of one program to TABLE, for slots of 4000 ticks. `remux plan` reads it.

Files:
  FILE    is read: a transport stream of 188-byte packets
  PROGRAM is the program_number in FILE, 1 to 65535: `ffprobe FILE` shows each as \"Program\"
  TABLE   is written: the text of a table (docs/TABLE.md)

Prints one line of JSON: audio_packets, units.

Exit status:
  0  TABLE is whole
  2  the names are empty or alike, or PROGRAM is no such number
  4  the program is refused: the line has its kind and place
  6  FILE can't be read
  7  TABLE or standard output can't be written
  9  FILE isn't there
  10 memory is wanting

Example:
  remux gen 1 12 a.ts
  remux probe a.ts 1 table.txt
";

const AUDIT: &str = "remux audit FILE PROGRAM SLOT

Judges one program of a transport stream of constant rate by the model of the decoder (ISO/IEC 13818-1, 2.4.2): whether its
clock references are on that rate, no buffer overflows, each picture and audio frame is there when it is decoded, no byte
stays longer than a second, and each transport buffer is empty once in a second.

Files:
  FILE    is read: a transport stream of 188-byte packets, at most 536870912 bytes
  PROGRAM is the program_number in FILE, 1 to 65535: `ffprobe FILE` shows each as \"Program\"
  SLOT    is how many ticks of 1/27000000 s a packet lasts, 1016 to 40000: 40608000000 / SLOT bits a second

Prints one line of JSON: audit, which is clean; or fault, pid and at, what breaks the model first, and where.

Exit status:
  0  nothing is found
  2  the name is empty, or PROGRAM or SLOT is no such number
  4  the program is refused: the line has its kind and place
  6  FILE can't be read
  7  standard output can't be written
  9  FILE isn't there
  10 memory is wanting
  11 the stream breaks the model: the line has what is found first

Example:
  remux gen 1 12 a.ts
  printf 'slot = 4000\\n[[program]]\\nfile = \"a.ts\"\\nprogram = 1\\nnumber = 1\\n' > job.toml
  remux run job.toml out.ts run.cert
  remux audit out.ts 1 4000
";

const GEN: &str = "remux gen SEED PICTURES OUT

Makes a program for trials: the same numbers make the same bytes on each machine.

Files:
  SEED     is the state before the first draw, 0 to 18446744073709551615
  PICTURES is how many pictures it has, 1 to 4096
  OUT      is written: a transport stream with this program as number 1

Prints one line of JSON: bytes, pictures.

Exit status:
  0  OUT is whole
  2  the name is empty, or a number is out of range
  7  OUT or standard output can't be written
  10 memory is wanting

Example:
  remux gen 1 12 a.ts
";
