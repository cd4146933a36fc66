// A run over files in memory that are opened as real ones are.
ghost use Rattle.std.specs.Prelude.{Some, None, true, if◌then◌else◌, bytes_eq, codes, map, string_bytes};

use cps_outside::{FreeGate, Opener};
use cps_top::{Environment, run_over};
use std::alloc::{AllocError, Global};
use std::io;
use std::io::{Cursor, ErrorKind};
use std::test::Fail;
use wake_table::SAMPLE_TEXT;

const HEAD: &str = "version = 1
k = 0
freeze = 150
objective = \"makespan\"
";

const FLIGHTS: &str = "callsign,category,eta,weight,windows,after
A1,A,1000,1,1000-2000,
F1,F,1010,1,1010-2000,
";

const PLAN: &str = "makespan 1180
land A1 1000 waiting
land F1 1180 waiting
";

// An aerodrome file and a flight file, and the names that were asked for.
#[derive(Drop)]
struct Desk {
    alloc: Global,
    aerodrome: Vec<u8>,
    flights: Vec<u8>,
    asked: Vec<String>,
}

impl Opener for Desk {
    type File = Cursor<Vec<u8>>;

    ghost state = { λ s. record {
      tells = true;
      content = λ name. if bytes_eq name (codes "aerodrome") then Some s.aerodrome.items
          else if bytes_eq name (codes "flights") then Some s.flights.items else None;
      asked = map string_bytes s.asked.items;
    } };

    fn open(&mut self, name: &str) -> io::Result<Cursor<Vec<u8>>> {
        self.asked.push(String::from_str(self.alloc, name)?)?;
        let bytes = if name == "aerodrome" {
            self.aerodrome.as_slice()
        } else if name == "flights" {
            self.flights.as_slice()
        } else {
            return Err(io::Error::from(ErrorKind::NotFound));
        };
        Ok(Cursor::new(bytes.to_vec(self.alloc)?))
    }
}

fn aerodrome(alloc: Global) -> Result<Vec<u8>, AllocError> {
    let mut text = Vec::from_slice(alloc, HEAD.as_bytes())?;
    text.extend_from_slice(SAMPLE_TEXT.as_bytes())?;
    Ok(text)
}

// The status, the output and the standard error of `plan` over two words.
const RUNS: [(&str, &str, u8, &str, &str); 3] = [
    ("aerodrome", "flights", 0, PLAN, ""),
    ("aerodrome", "winds", 4, "", "cps: file 2: failed\n"),
    ("flights", "flights", 3, "", "cps: aerodrome: not toml\n"),
];

#[test]
fn a_run_over_opened_files_answers_for_their_bytes(rt: HostRuntime) -> Result<(), Fail> {
    let alloc = rt.alloc();
    for (first, second, status, text, line) in RUNS {
        let mut words = Vec::new(alloc);
        for word in ["plan", first, second] {
            words.push(String::from_str(alloc, word)?)?;
        }
        let desk = Desk {
            alloc,
            aerodrome: aerodrome(alloc)?,
            flights: Vec::from_slice(alloc, FLIGHTS.as_bytes())?,
            asked: Vec::new(alloc),
        };
        let environment = Environment {
            opener: desk,
            out: Vec::new(alloc),
            err: Vec::new(alloc),
        };
        let run = run_over(&rt, alloc, words.as_slice(), environment, &FreeGate);
        assert_eq!(rt; run.status, status);
        assert_eq!(rt; run.out.into_writer().as_slice(), text.as_bytes());
        assert_eq!(rt; run.err.into_writer().as_slice(), line.as_bytes());
    }
    Ok(())
}
