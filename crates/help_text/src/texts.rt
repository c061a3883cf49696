/// What `--help` prints.
pub const HELP: &str = "remux: a statistical remultiplexer for MPEG-2 whose promises are proved

  remux run JOB OUT CERT  plans the programs that the job text in JOB names, writes their stream of constant
                          rate to OUT and a certificate of the plan to CERT
  remux check JOB CERT    reads the same programs again, and checks the certificate in CERT
  remux fit JOB LIST      reads the same programs, and tells in which of the slots in LIST (64 lines at most, each
                          a number of ticks, rising) they fit in their smallest versions, and where they miss
  remux plan TABLE CERT   plans the table of pictures in the file TABLE, writes a certificate of the
                          plan to CERT
  remux check-plan TABLE CERT
                          checks the certificate in CERT against the table of pictures in the file TABLE
  remux impossible TABLE  tells of the table in the file TABLE whether its smallest versions are scheduled, or it is
                          proved that no choice of versions is
  remux probe FILE PROGRAM TABLE
                          writes the table of pictures of the program with the program_number PROGRAM (1 to 65535)
                          of the transport stream FILE to TABLE, for slots of 4000 ticks
  remux audit FILE PROGRAM SLOT
                          judges the program with the program_number PROGRAM of the transport stream FILE, whose packets
                          last SLOT ticks (1016 to 40000) each, by the buffers and clock of the decoder's model
  remux gen SEED PICTURES OUT
                          writes the generated program of SEED (0 to 18446744073709551615) with PICTURES
                          pictures (1 to 4096), a transport stream for trials, to OUT
  remux --help            prints this text
  remux --help COMMAND    prints what one command reads and writes, its exit statuses and an example
  remux --version         prints the version

Each command prints one line of JSON. The file names of a command are different. The exit status is 0 where the work was
done, 2 for other words, 3 for a refused table, job or list, 4 for a refused program, 5 where the smallest choice
can't be scheduled, 6 where a file can't be read, 7 where one can't be written, 8 for a refused
certificate, 9 where a file is missing, 10 where memory is wanting, 11 where a stream breaks the decoder's model, and 12
where a job fits in no slot of a list.
For each status but 0 a sentence on standard error says what is wrong, and docs/REFUSALS.md what to do. docs/JOB.md has
the job's text and that of a list, docs/TABLE.md the table's, docs/CERTIFICATE.md the certificate's bytes,
docs/FORMATS.md the report's keys.
";

/// What `--version` prints.
pub const VERSION: &str = "remux 0.1.0\n";
