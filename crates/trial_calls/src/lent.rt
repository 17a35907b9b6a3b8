// What is lent to the store.
ghost use Rattle.std.specs.Prelude.{◌≡◌, length, replicate, slice_index, take};

use crate::copies::{area, behind, differing, first, first_mut, number, put_back, save};
use trial_words::layout::{
    BRANCH_LENGTH, BRANCH_TABLE, Bytes, DISK, DISK_LENGTH, MARK_LENGTH, MARK_TABLE, NAME_LENGTH,
    NAME_TABLE, Numbers, PLACE_LENGTH, PLACE_TABLE, RECORD_LENGTH, RECORD_TABLE, SLAB, SLAB_LENGTH,
    TOUCHED,
};
use trial_words::words::{get, plus, put, put_four};

// The four tables and the slab, with room for so many numbers and bytes.
#[derive(Drop)]
pub struct Tables<const B: usize, const R: usize, const P: usize, const N: usize, const S: usize> {
    pub branches: [u32; B],
    pub records: [u32; R],
    pub places: [u32; P],
    pub names: [u32; N],
    pub slab: [u8; S],
}

// The parts of the tables that are lent to be written, of the lengths on trial. The slab is lent beside them, since not every call writes it.
#[derive(Drop)]
pub struct Lent<'a> {
    pub branches: &'a mut [u32],
    pub records: &'a mut [u32],
    pub places: &'a mut [u32],
    pub names: &'a mut [u32],
}

// The parts of tables and slab that are lent to be read alone.
#[derive(Clone, Copy)]
pub struct Shown<'a> {
    pub branches: &'a [u32],
    pub records: &'a [u32],
    pub places: &'a [u32],
    pub names: &'a [u32],
    pub slab: &'a [u8],
}

impl<const B: usize, const R: usize, const P: usize, const N: usize, const S: usize> Tables<
    B,
    R,
    P,
    N,
    S,
> {
    // All zeros.
    pub fn blank() -> Self
        ensures { result ≡ record { branches = replicate B 0; records = replicate R 0; places = replicate P 0; names = replicate N 0; slab = replicate S 0 } }
    {
        Tables {
            branches: [0; B],
            records: [0; R],
            places: [0; P],
            names: [0; N],
            slab: [0; S],
        }
    }

    // The parts of the tables and that of the slab, of the lengths that the table of numbers says.
    pub fn lent<'a>(&'a mut self, w: &Numbers) -> (Lent<'a>, &'a mut [u8])
        ensures branches { result.0.branches.now ≡ take (slice_index w.now 10) self.old.branches }
        ensures records { result.0.records.now ≡ take (slice_index w.now 11) self.old.records }
        ensures places { result.0.places.now ≡ take (slice_index w.now 12) self.old.places }
        ensures names { result.0.names.now ≡ take (slice_index w.now 13) self.old.names }
        ensures slab { result.1.now ≡ take (slice_index w.now 14) self.old.slab }
    {
        let t = Lent {
            branches: first_mut(&mut self.branches, get(w, BRANCH_LENGTH)),
            records: first_mut(&mut self.records, get(w, RECORD_LENGTH)),
            places: first_mut(&mut self.places, get(w, PLACE_LENGTH)),
            names: first_mut(&mut self.names, get(w, NAME_LENGTH)),
        };
        let slab = first_mut(&mut self.slab, get(w, SLAB_LENGTH));
        (t, slab)
    }

    // The same parts, to be read alone.
    pub fn shown<'a>(&'a self, w: &Numbers) -> Shown<'a>
        ensures branches { result.branches.now ≡ take (slice_index w.now 10) self.now.branches }
        ensures records { result.records.now ≡ take (slice_index w.now 11) self.now.records }
        ensures places { result.places.now ≡ take (slice_index w.now 12) self.now.places }
        ensures names { result.names.now ≡ take (slice_index w.now 13) self.now.names }
        ensures slab { result.slab.now ≡ take (slice_index w.now 14) self.now.slab }
    {
        Shown {
            branches: first(&self.branches, get(w, BRANCH_LENGTH)),
            records: first(&self.records, get(w, RECORD_LENGTH)),
            places: first(&self.places, get(w, PLACE_LENGTH)),
            names: first(&self.names, get(w, NAME_LENGTH)),
            slab: first(&self.slab, get(w, SLAB_LENGTH)),
        }
    }
}

// Those of a list, with room for rows more of branches and for a row more of names.
pub(crate) type Copies = Tables<84, 64, 64, 99, 4352>;

impl Copies {
    // As they stand in the tables of numbers and bytes.
    pub(crate) fn of(w: &Numbers, b: &Bytes) -> Self {
        Tables {
            branches: area(w, BRANCH_TABLE, 0),
            records: area(w, RECORD_TABLE, 0),
            places: area(w, PLACE_TABLE, 0),
            names: area(w, NAME_TABLE, 0),
            slab: area(b, SLAB, 0),
        }
    }

    // They go back to where they stand. Notes how many numbers of each table differ from what stands there.
    pub(crate) fn save(&self, w: &mut Numbers) {
        let branches = save(w, BRANCH_TABLE, &self.branches);
        let records = save(w, RECORD_TABLE, &self.records);
        let places = save(w, PLACE_TABLE, &self.places);
        let names = save(w, NAME_TABLE, &self.names);
        put_four(w, TOUCHED, branches, records, places, names);
    }

    // The slab goes back to where it stands. Notes how many of its bytes differ from what stands there.
    pub(crate) fn save_slab(&self, w: &mut Numbers, b: &mut Bytes) {
        let touched = save(b, SLAB, &self.slab);
        put(w, TOUCHED + 4, touched);
    }
}

// A live disk and its marks.
#[derive(Drop)]
pub(crate) struct Live<const D: usize> {
    disk: [u8; D],
    marks: [u8; 8],
}

// The parts of them that are lent, of the lengths on trial.
#[derive(Drop)]
pub(crate) struct LentLive<'a> {
    pub(crate) disk: &'a mut [u8],
    pub(crate) marks: &'a mut [u8],
}

impl<const D: usize> Live<D> {
    // Every page is stale.
    pub(crate) fn blank() -> Self
        ensures { result ≡ record { disk = replicate D 0; marks = replicate 8 0 } }
    {
        Live {
            disk: [0; D],
            marks: [0; 8],
        }
    }

    // Those parts, of the lengths that the table of numbers says.
    pub(crate) fn lent<'a>(&'a mut self, w: &Numbers) -> LentLive<'a>
        ensures disk { result.disk.now ≡ take (slice_index w.now 480) self.old.disk }
        ensures marks { result.marks.now ≡ take (slice_index w.now 481) self.old.marks }
    {
        let marks = &mut self.marks;
        LentLive {
            disk: first_mut(&mut self.disk, get(w, DISK_LENGTH)),
            marks: first_mut(marks, get(w, MARK_LENGTH)),
        }
    }
}

impl Live<1280> {
    // As they stand in the tables of numbers and bytes.
    pub(crate) fn of(w: &Numbers, b: &Bytes) -> Self {
        Live {
            disk: area(b, DISK, 0),
            marks: marks_of(w),
        }
    }

    // They go back to where they stand. Notes how many bytes and marks differ from what stands there.
    pub(crate) fn save(&self, w: &mut Numbers, b: &mut Bytes) {
        let pages = save(b, DISK, &self.disk);
        let touched = differing(&marks_of(w), &self.marks);
        for (k, mark) in self.marks.iter().enumerate() {
            put(w, plus(MARK_TABLE, number(k)), u32::from(*mark));
        }
        put(w, TOUCHED + 5, plus(pages, touched));
    }
}

// The marks as they stand in the table of numbers.
fn marks_of(w: &Numbers) -> [u8; 8] {
    let mut marks = [0; 8];
    for (k, mark) in marks.iter_mut().enumerate() {
        *mark = (get(w, plus(MARK_TABLE, number(k))) % 256) as u8;
    }
    marks
}
