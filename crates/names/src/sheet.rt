// The covered names on a sheet, so that a line's name is found among them without going through all of them. Names are numbered from 0 on. A
// sheet has for each of 64 keys the last name that has it; from 64 on, for each name, the one before it that has its key, each as 1 more than its
// number, or 0 for none; and from 128 on where each name starts, an extra one 1024 further on.
ghost use Rattle.std.specs.Prelude.{◌≡◌, not, ◌+◌, ◌≤◌, ◌<◌, length, get_or};
ghost use Rattle.names.specs.Extra.{names_in, extra_names};
ghost use Rattle.names.specs.Lists.{list_names, is_list};
ghost use Rattle.names.specs.Covered.{chosen, covered_names};
ghost use Rattle.names.specs.InnerSheet as I;
ghost use Rattle.names.specs.InnerSheet.{key_of, name_at, named, Start, Entered, NumberOn, Enters, with_name};

use super::{Covered, KnownNames, Names, has_name, name_end, same_name};

// Kept: three tables in one array: the definitions of specs/InnerSheet.antt have one, and without a heap there is no map.
#[derive(Clone, Copy)]
pub struct Sheet<'a> {
    pub known: &'a [u8],
    pub extra: &'a [u8],
    // Kept: 0 for none: an Option<u16> takes twice the bytes of the stack, on which gate has a bound, and a NonZeroU16 would be 1 more than the number too.
    pub entries: [u16; 192],
    // How many names there are.
    pub count: usize,
}

impl<'a> Sheet<'a> {
    // The covered names on a sheet.
    pub fn of(known: &'a KnownNames, covered: &Covered<'a>) -> Sheet<'a>
        ensures names { I.Sheet result.known.now result.extra.now result.entries (covered_names covered.now.mask covered.now.extra.now) }
        ensures runs { (result.known.now ≡ known.now.run) × (result.extra.now ≡ covered.now.extra.now) }
        ensures count { result.count ≡ length (covered_names covered.now.mask covered.now.extra.now) }
    {
        let mut entries = [0; 192];
        let first = enter(&known.run, covered.mask / 2, 0, &mut entries, 0);
        let count = enter(covered.extra, u64::MAX, 1024, &mut entries, first);
        Sheet {
            known: &known.run,
            extra: covered.extra,
            entries,
            count,
        }
    }

    // The number of a name.
    pub fn number(&self, name: &[u8]) -> Option<usize>
        requires { Entered self.now.known.now self.now.extra.now self.now.entries }
        ensures { NumberOn self.now.known.now self.now.extra.now self.now.entries name.now result }
    {
        // Kept: a `while` that follows the chain of a key; it counts no index.
        let mut entry = self.entries[key(name)] as usize;
        while entry != 0 {
            let number = entry - 1;
            if same_name(name, self.name_from(self.entries[128 + number] as usize)) {
                return Some(number);
            }
            entry = self.entries[64 + number] as usize;
        }
        None
    }

    // Whether the name with this number may stand on one line only: it is no list field.
    pub fn single(&self, number: usize) -> bool
        requires { (number < 64) × Start self.now.known.now self.now.extra.now (get_or self.now.entries (128 + number) 0) }
        ensures { result ≡ not (is_list (named self.now.known.now self.now.extra.now (get_or self.now.entries (128 + number) 0))) }
    {
        !has_name(
            &list_names(),
            0,
            self.name_from(self.entries[128 + number] as usize),
        )
    }

    // The name that starts there.
    fn name_from(&self, start: usize) -> &'a [u8]
        requires { Start self.now.known.now self.now.extra.now start }
        ensures { result.now ≡ named self.now.known.now self.now.extra.now start }
    {
        if start < 1024 {
            return name_at(self.known, start);
        }
        name_at(self.extra, start - 1024)
    }
}

// The name of a run that starts at byte at.
fn name_at<'a>(run: &'a [u8], at: usize) -> &'a [u8]
    requires { at ≤ length run.now }
    ensures { result.now ≡ name_at run.now at }
{
    &run[at..name_end(run, at)]
}

// The names of a run whose bits are set in wanted, the lowest bit for the first, entered after count others; those of the run start at base and on.
fn enter(run: &[u8], wanted: u64, base: usize, entries: &mut [u16; 192], count: usize) -> usize
    requires { (length run.now < 1024) × (base ≤ 1024) × (count + length (chosen wanted (extra_names run.now)) ≤ 64) }
    ensures { (result ≡ count + length (chosen wanted (extra_names run.now))) × Enters run.now (chosen wanted (extra_names run.now)) base count entries.old entries.new }
{
    let mut entered = count;
    let mut left = wanted;
    let mut start = base;
    for name in Names::of(run) {
        // Saves the walk to the end of the run.
        if left == 0 {
            break;
        }
        if left % 2 == 1 {
            put(entries, key(name), entered, start);
            entered += 1;
        }
        left /= 2;
        start += name.len() + 1;
    }
    entered
}

fn put(entries: &mut [u16; 192], key: usize, entered: usize, start: usize)
    requires { (key < 64) × (entered < 64) × (start < 65536) }
    ensures { entries.new ≡ with_name entries.old key entered start }
{
    entries[64 + entered] = entries[key];
    entries[128 + entered] = start as u16;
    entries[key] = (entered + 1) as u16;
}

fn key(name: &[u8]) -> usize
    ensures { (result ≡ key_of name.now) × (result < 64) }
{
    if name.len() == 0 {
        return 0;
    }
    (name.len() % 64 + 20 * (name[0].to_ascii_lowercase() as usize)) % 64
}

// The names of document 02, K10, joined by commas.
fn list_names() -> [u8; 124]
    ensures { names_in result ≡ list_names }
{
    *b"Accept,\
    Accept-Charset,\
    Accept-Encoding,\
    Accept-Language,\
    Connection,\
    Cache-Control,\
    If-Match,\
    If-None-Match,\
    TE,\
    Trailer,\
    Upgrade,\
    Via"
}
