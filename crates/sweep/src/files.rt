// All that speaks to the system about files: opening, reading and closing the one that is looked at. What is promised of its bytes is by receipts, which the
// proofs of `open_path` and `read_descriptor` make: these do nothing but call the system, and their contracts say what each of its answers means. Whether that
// is true is read in them; what the other functions make of an answer is proved. A `Disk` holds the file that was opened last, or none if that opening failed
// or there was none; how many openings there were; and how many of the file's bytes have come. Nothing else can look at these numbers.
ghost use Rattle.sweep.specs.Files.{MayClose, MayClose_prop, PathOpened, DescriptorRead};

use std::fs::File;
use std::io::Read;
use std::rt::HostRuntime;

// The system's room for a path, with a 0 behind it.
pub const PATH_MAX: usize = 4096;

// The longest path that is opened.
const LONGEST_PATH: usize = PATH_MAX - 1;

// The file that was opened last, if it is open, with the descriptor that its opening answered; the openings so far; and the bytes of the file that have come.
#[derive(Drop)]
pub struct Disk {
    pub file: Option<File>,
    openings: u64,
    came: u64,
    ghost holds: { MayClose openings file } by { MayClose_prop openings file },
}

// The system's opening of a path for reading, number k of the run.
fn open_path(rt: &HostRuntime, k: u64, path: &str) -> Option<File>
    ensures { PathOpened k path.now result }
{
    File::open(rt, path).ok()
}

// The system's read of a file: that of opening k, of whose bytes `at` have come; how many it brought, if it did not fail. It is not
// one with the read of standard input, since each makes the receipts of its own call in its own proof.
fn read_descriptor(k: u64, at: u64, mut file: &File, part: &mut [u8]) -> Option<usize>
    ensures { DescriptorRead k at file.now result part.new }
{
    file.read(part).ok()
}

// The system's closing of a file: that of opening k, or none.
fn close_descriptor(k: u64, file: Option<File>)
    requires { MayClose k file }
{
    drop(file);
}

impl Disk {
    ghost use Rattle.std.specs.Prelude.{◌≡◌, suc, ◌^◌, ◌<◌};
    ghost use Rattle.sweep.specs.Disk.{kept_of, openings, no_descriptor, IsOpen, FileOpened, FileRead};

    // No file was opened.
    pub fn new() -> Self
        ensures { (openings result ≡ 0) × (kept_of result ≡ no_descriptor) }
    {
        Disk {
            file: None,
            openings: 0,
            came: 0,
        }
    }

    // Closes the file that was opened last, and opens the file of a path; whether that was possible: the file stays here, so no value is handed out.
    pub fn open_file(&mut self, rt: &HostRuntime, path: &[u8]) -> bool
        requires { suc (openings self.old) < 2 ^ 64 }
        ensures { FileOpened path.now self.old result self.new }
    {
        let last = self.file.take();
        close_descriptor(self.openings, last);
        self.openings += 1;
        self.came = 0;
        if LONGEST_PATH < path.len() {
            return false;
        }
        let Ok(text) = str::from_utf8(path) else {
            return false;
        };
        self.file = open_path(rt, self.openings, text);
        self.file.is_some()
    }

    // One read of the file that was opened last, if it did not fail: no byte only where it ends, if there is room for one.
    pub fn read_file(&mut self, part: &mut [u8]) -> Option<usize>
        requires { IsOpen self.old }
        ensures { FileRead self.old result self.new part.new × IsOpen self.new }
    {
        let file = self.file.as_ref()?;
        let n = read_descriptor(self.openings, self.came, file, part)?;
        self.came = self.came.checked_add(n as u64)?;
        Some(n)
    }
}
