// The job file: its numbers and lists, read by its header, and the tests 12 and 13.
#![tactic(auto)]

ghost use Rattle.std.specs.Prelude.{false, ◌≡◌, ◌+◌, ◌*◌, ◌<◌, ◌≤◌, length};
ghost use Rattle.definition.specs.Job.{cut_short, field, list_at, misplaced, too_large, word};
ghost use Rattle.job_file.specs.File.{Front, Stated};

// The bytes of the header, and of the longest file.
const HEADER: usize = 28;

pub const MOST_BYTES: usize = 4096;

// The largest order and count that a header may state, also as a number of the header.
pub const MOST_PLACES: usize = 64;

const MOST_STATED: u32 = MOST_PLACES as u32;

// The little-endian number in the four bytes from place `at` on.
fn word(file: &[u8], at: usize) -> u32
    requires { at + 4 ≤ length file.now }
    ensures { result ≡ word file.now at }
{
    u32::from_le_bytes([file[at], file[at + 1], file[at + 2], file[at + 3]])
}

// Number k of the header.
pub fn field(file: &[u8], k: usize) -> u32
    requires { (28 ≤ length file.now) × (k < 7) }
    ensures { result ≡ field file.now k }
{
    word(file, 4 * k)
}

// Whether the file is longer than the longest, or its header, if it is whole, states too large an order or count.
#[tactic(auto, using(std::proofs::lemmas::Bool::Decides::nat_tests), unfolding(definition::specs::Job::header_bytes, definition::specs::Job::order, definition::specs::Job::too_large))]
pub fn too_large(file: &[u8]) -> bool
    ensures { result ≡ too_large file.now }
{
    file.len() > MOST_BYTES
        || HEADER <= file.len()
            && (field(file, 2) > MOST_STATED
                || field(file, 3) > MOST_STATED
                || field(file, 5) > MOST_STATED)
}

// Whether a list is not empty, and begins in the header or does not lie wholly in the file.
#[tactic(auto, using(std::proofs::lemmas::Bool::Decides::nat_tests), unfolding(definition::specs::Job::header_bytes, definition::specs::Job::misplaced))]
fn misplaced(file: &[u8], count: u32, at: u32) -> bool
    ensures { result ≡ misplaced file.now count at }
{
    let (start, places) = (at as usize, count as usize);
    count != 0 && (start < HEADER || file.len() < start + 4 * places)
}

// Whether the header is cut short, or a list is misplaced.
#[tactic(auto, using(std::proofs::lemmas::Bool::Decides::nat_tests), unfolding(definition::specs::Job::cut_short, definition::specs::Job::header_bytes))]
pub fn cut_short(file: &[u8]) -> bool
    ensures { result ≡ cut_short file.now }
{
    file.len() < HEADER
        || misplaced(file, field(file, 3), field(file, 4))
        || misplaced(file, field(file, 5), field(file, 6))
}

// Reads the list from place `at` on, with as many numbers as `list` has places.
fn read_list(file: &[u8], at: usize, list: &mut [u32])
    requires { misplaced file.now (length list.old) at ≡ false }
    ensures { list.new ≡ list_at file.now (length list.old) at }
{
    for (i, number) in list.iter_mut().enumerate() {
        *number = word(file, at + 4 * i);
    }
}

// Reads the list whose count and offset are the numbers k and k + 1 of the header into the first places of `list`; its count.
pub fn read_stated(file: &[u8], k: usize, list: &mut [u32]) -> usize
    requires { Stated file.now k (length list.old) }
    ensures { Front file.now k list.new result }
{
    let count = field(file, k) as usize;
    let at = field(file, k + 1) as usize;
    read_list(file, at, &mut list[..count]);
    count
}
