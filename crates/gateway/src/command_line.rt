//! The words of the command line as texts, and what `--help` says of them.
use gw_base::Text;
use std::alloc::{AllocError, Global};
use std::env::{Env, FillError};

/// What `--help` prints. The launcher shows it from here before the program is proved.
pub const USAGE: &str = "\
usage: gateway serve      SCHEDULE --keep K --listen ADDRESS --connections C
                          [--journal F]
       gateway to-gtfsrt  SCHEDULE --at MOMENT [--et FILE | --sx FILE]...
       gateway to-siri    SCHEDULE --at MOMENT --feed FILE
       gateway to-siri-sx SCHEDULE --at MOMENT --feed FILE
       gateway show       SCHEDULE --feed FILE
       gateway board      SCHEDULE --at MOMENT --stop STOP --minutes M --max V
                          [--et FILE]...
       gateway make       --seed X --trips T --stops S
       gateway --help | --version

All words stand in this order; a flag and its value are two words.

SCHEDULE  --gtfs DIR ZONE --from DAY --days N: a GTFS Schedule folder, its zone,
          the first service day, and how many service days, from 1 to 32
ZONE      --zone-rule RULE, a POSIX rule, or --zone-file FILE, a TZif file, such
          as /usr/share/zoneinfo/Europe/Paris
DAY       YYYY-MM-DD; for serve, any past day
K         how many past days the window keeps, below N and at most 31
ADDRESS   where serve listens, such as 127.0.0.1:8080
C         how many connections serve answers before it ends, from 1 to 4294967295
F         a journal: serve writes each accepted body to this file before it
          answers, and reads them all again when it starts
MOMENT    the time of the result, in UTC: YYYY-MM-DDThh:mm:ssZ
FILE      a delivery in JSON (--et, --sx), or a feed in protobuf (--feed)
STOP      a stop_id of the folder
M, V      how many minutes the board looks ahead, from 1 to 1440, and the most
          visits that it lists, from 1 to 10000
X, T, S   a sample's seed, from 0 to 2147483647, its number of trips, from 1 to
          20000, and the number of stops of each trip, from 2 to 100

serve accepts deliveries and feeds by POST, and answers GET with a feed and a
SIRI delivery; its window of days moves with the clock:
  ./gateway serve --gtfs FOLDER --zone-file /usr/share/zoneinfo/Europe/Paris \\
    --from 2026-11-28 --days 3 --keep 1 --listen 127.0.0.1:8080 \\
    --connections 1000000
  curl --data-binary @timetables.json http://127.0.0.1:8080/siri/et
  curl http://127.0.0.1:8080/gtfs-rt > feed.pb
to-gtfsrt turns SIRI timetables and situations into a GTFS Realtime feed:
  ./gateway to-gtfsrt --gtfs examples/sample \\
    --zone-rule CET-1CEST,M3.5.0,M10.5.0/3 --from 2024-05-01 --days 2 \\
    --at 2024-05-01T06:00:00Z --et examples/late.json > late.pb
to-siri turns a feed's trip updates into a SIRI delivery with every call:
  ./gateway to-siri --gtfs examples/sample \\
    --zone-rule CET-1CEST,M3.5.0,M10.5.0/3 --from 2024-05-01 --days 2 \\
    --at 2024-05-01T06:00:00Z --feed examples/late.pb > late.json
to-siri-sx turns a feed's alerts into a SIRI delivery of situations:
  ./gateway to-siri-sx --gtfs examples/sample \\
    --zone-rule CET-1CEST,M3.5.0,M10.5.0/3 --from 2024-05-01 --days 2 \\
    --at 2024-05-01T06:00:00Z --feed examples/alert.pb > alert.json
show prints what a feed says of every stop of its journeys:
  ./gateway show --gtfs examples/sample \\
    --zone-rule CET-1CEST,M3.5.0,M10.5.0/3 --from 2024-05-01 --days 2 \\
    --feed examples/late.pb
board makes a SIRI StopMonitoring delivery of the next visits to one stop:
  ./gateway board --gtfs examples/sample \\
    --zone-rule CET-1CEST,M3.5.0,M10.5.0/3 --from 2024-05-01 --days 2 \\
    --at 2024-05-01T06:00:00Z --stop B --minutes 60 --max 10 \\
    --et examples/late.json > board.json
make makes up a folder and deliveries from three numbers, takes them end to
end without reading a file, and counts what the feed says of all stops:
  ./gateway make --seed 0 --trips 1 --stops 3

The result goes to standard output. Standard error gets a report on each file,
or the reason why there is no result; show ends its result with the report, and
serve answers each body with one. Statuses: 0 done; 2 word K of the command line
can't stand there (the command itself is word 0); 65 bad input; 66 a file is
missing; 71 out of memory; 74 a file, a stream or the network failed.
";

// The most bytes of a word: Linux takes no longer one.
const MOST_BYTES: usize = 131_072;

// The text of a word's bytes. Bytes that aren't UTF-8 stand as the empty text: no command accepts it in
// any place, so the words are refused at this one at the latest.
fn text_of(alloc: Global, bytes: &[u8]) -> Result<Text, AllocError> {
    Text::copied(alloc, str::from_utf8(bytes).unwrap_or(""))
}

/// The words of the command line after the program's name; one that is too long or isn't UTF-8 is the empty text. Err
/// for want of memory.
pub fn words_of<E: Env>(env: &E, alloc: Global) -> Result<Vec<Text>, AllocError> {
    let mut buf = Vec::new(alloc);
    buf.resize(MOST_BYTES, 0)?;
    let mut words = Vec::new(alloc);
    for place in 1..usize::MAX {
        let length = match env.arg(place, buf.as_mut_slice()) {
            Ok(length) => length,
            Err(FillError::NotPresent) => break,
            Err(FillError::TooLong) => 0,
        };
        words.push(text_of(alloc, &buf.as_slice()[..length])?)?;
    }
    Ok(words)
}
