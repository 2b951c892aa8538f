//! What the program says of itself.

const HEAD: &str = "newsdesk: a newsroom server for one news agency

";

const INIT: &str =
    "newsdesk init STORE UUID                make an empty log in the file STORE, for the store of this identifier
";

const BATCH: &str =
    "newsdesk batch STORE                    answer the lines of standard input, one JSON object a line, and keep what they add
";

const INGEST: &str =
    "newsdesk ingest STORE FORMAT PROVIDER   take in standard input as PROVIDER sent it: FORMAT 7901-any is a wire, ninjs-any an item or a list of items, as agencies send them; 7901 and ninjs are read by the letter
";

const IMPORT: &str =
    "newsdesk import STORE CALLER            add the subscribers of standard input, a table of comma-separated values, as requests of CALLER
";

const PACKAGE: &str =
    "newsdesk package STORE CALLER NUMBER    publish the package of standard input, one JSON object, to the subscribers who have every member
";

const FEED: &str =
    "newsdesk feed STORE SUBSCRIBER AFTER    release what waits, and write the entries of a subscriber's feed behind the first AFTER
";

const QUEUE: &str =
    "newsdesk queue STORE                    release what waits, and write how far each subscriber's feed is acknowledged
";

const ARCHIVE: &str =
    "newsdesk archive STORE PAGE QUERY       write how many publications a query finds, and a line for each of a page of 100, counted from 0
";

const CONTENTS: &str =
    "newsdesk contents STORE PUBLICATION     write what a package holds, level by level, and its associations
";

const AUDIT: &str =
    "newsdesk audit STORE AFTER              write a line for each entry of the list behind the first AFTER
";

const ASK: &str =
    "newsdesk ask STORE ENTRIES              answer the questions of standard input at the list of the first ENTRIES entries
";

const WHY: &str =
    "newsdesk why STORE PUBLICATION SUBSCRIBER    write why a publication is due to a subscriber or not, and what became of it
";

const DIGEST: &str =
    "newsdesk digest STORE ENTRIES           write the SHA-256 of the first ENTRIES entries of the list, by which backups and standbys are compared
";

const LIMITS: &str =
    "newsdesk limits STORE                   write each limit of the store, and how much of it is used
";

const DRAIN: &str =
    "newsdesk drain STORE NAME ADDRESS ..    send what is due to these receivers, each with its host and port, until nothing is
";

const SERVE: &str =
    "newsdesk serve STORE ADDRESS WORKERS NAME ADDRESS ..    answer requests over HTTP at ADDRESS, a host and a port, and push what is due to these receivers, each with its host and port, by so many workers, until a stop; with --key FILE directly behind serve, each request has to have the first line of FILE as its header X-Key
";

const RECEIVE: &str =
    "newsdesk receive STORE NAME             take the frames of standard input as the receiver of this name, keep them, and write a receipt for each
";

const SHIP: &str =
    "newsdesk ship STORE NAME ADDRESS        send the records of the list to the standby of this name, with its host and port, until it has them all; with --every SECONDS directly behind ship it goes on, beside a server too, with what is new
";

const STAND_IN: &str =
    "newsdesk stand-in STORE UUID            take the records of standard input as the standby of the store of this identifier, keep them, and write behind each how many there are
";

const CHECK: &str =
    "newsdesk check STORE                    open the log, and say how many entries and publications it holds
";

const PACK: &str =
    "newsdesk pack STORE                     pack what only the log holds into its side, empty the log, and say how many entries there are
";

const DRILL: &str =
    "newsdesk drill N SEED                   in memory: take N stories drawn from SEED, deliver all feeds, and write how long and how far they are
";

const TAIL: &str = "newsdesk --help                         say this
newsdesk COMMAND --help                 say the line of one command
newsdesk --version                      say the version

Options stand directly behind COMMAND: with --wait it waits for a STORE that another program has, with --beside check, archive,
contents, audit, ask, why, digest, limits and ship read one that is being served, `ship --every SECONDS STORE ..` ships what is new each so many
seconds until it is ended, and `serve --key FILE STORE ..` answers only who sends the first line of FILE as the header X-Key.

A line of `batch` is a request, as
  {\"by\":\"admin\",\"number\":1,\"do\":\"add_subscriber\",\"subscriber\":\"alpha\",\"format\":\"ninjs\",\"products\":[\"all\"]}
  {\"by\":\"admin\",\"number\":2,\"do\":\"flash\",\"story\":{\"headline\":\"Fire\",\"body\":\"Smoke.\"}}
or a question, as
  {\"ask\":\"feed\",\"subscriber\":\"alpha\",\"after\":0}

Exit status: 0 all was answered, 2 usage, 3 wrong store, 4 read fault, 5 write fault, 6 store fault,
7 damaged log or side, 8 log or side full, 9 out of memory, 10 link fault, 11 no receipt or no reply of a standby, 12 input too
long, 13 no frame or no record, 14 no head of a table, 15 another program has the store. A status other than 0 and 5 is written
to the output too, as {\"status\":7} with the place of the damage. Standard error says why, and what to do.
";

/// How the program is used, for `--help`: texts, to be written one behind the other. Each command has a line.
pub fn help_texts() -> [&'static str; 24] {
    [
        HEAD, INIT, BATCH, INGEST, IMPORT, PACKAGE, FEED, QUEUE, ARCHIVE, CONTENTS, AUDIT, ASK,
        WHY, DIGEST, LIMITS, DRAIN, SERVE, RECEIVE, SHIP, STAND_IN, CHECK, PACK, DRILL, TAIL,
    ]
}

/// The line of a command, for its word and `--help`: nothing where the word is no command.
pub fn command_help(command: &str) -> Option<&'static str> {
    match command {
        "init" => Some(INIT),
        "batch" => Some(BATCH),
        "ingest" => Some(INGEST),
        "import" => Some(IMPORT),
        "package" => Some(PACKAGE),
        "feed" => Some(FEED),
        "queue" => Some(QUEUE),
        "archive" => Some(ARCHIVE),
        "contents" => Some(CONTENTS),
        "audit" => Some(AUDIT),
        "ask" => Some(ASK),
        "why" => Some(WHY),
        "digest" => Some(DIGEST),
        "limits" => Some(LIMITS),
        "drain" => Some(DRAIN),
        "serve" => Some(SERVE),
        "receive" => Some(RECEIVE),
        "ship" => Some(SHIP),
        "stand-in" => Some(STAND_IN),
        "check" => Some(CHECK),
        "pack" => Some(PACK),
        "drill" => Some(DRILL),
        _ => None,
    }
}

/// The program's name and version, for `--version`.
pub fn version_text() -> &'static str {
    "newsdesk 1\n"
}
