// Records of an image, by their section and their number in it.
ghost use Rattle.std.specs.Prelude.{◌≡◌, ◌+◌, ◌*◌, ◌<◌, ◌≤◌};
ghost use Rattle.scope.specs.Cells.{Bytes};
ghost use Rattle.scope.specs.Image.{programs, areas, instructions, constants, data_cells};
ghost use Rattle.scope.specs.Image.{instruction_at, constant_at, data_cell_at};
ghost use Rattle.image.specs.Laid.{Laid};
ghost use Rattle.image.specs.Records.{program_at, area_at};
ghost use Rattle.image.specs.View.{begin_of, size_of, count_of, record_place, AreRecords};

use crate::{Area, Offsets, Program};
use scope::{Cell, Instruction};

// "Sections follow the header in that order"
#[derive(Clone, Copy, Debug, PartialEq, Eq)]
pub enum Section {
    Programs,
    Areas,
    Instructions,
    Constants,
    Cells,
}

impl Section {
    // How many bytes a record has.
    fn size(self) -> usize
        ensures { result ≡ size_of self }
    {
        match self {
            Section::Programs => 12,
            Section::Areas => 4,
            Section::Instructions => 8,
            Section::Constants => 8,
            Section::Cells => 8,
        }
    }

    // How many bytes k records have.
    fn span(self, k: usize) -> usize
        requires { size_of self * k < 65536 }
        ensures { result ≡ size_of self * k }
    {
        self.size() * k
    }
}

// "The image is read through its header's offsets wherever a record is wanted": its bytes and these offsets. It asks
// that the sections lie in the bytes, and no more.
#[derive(Clone, Copy)]
pub struct View<'a> {
    pub bytes: &'a [u8],
    pub at: Offsets,
    pub ghost octets: { Bytes bytes.now },
    pub ghost laid: { Laid bytes.now at },
}

impl<'a> View<'a> {
    pub fn of(bytes: &'a [u8], at: Offsets) -> View<'a>
        requires { Laid bytes.now at }
        ensures bytes { result.bytes.now ≡ bytes.now }
        ensures at { result.at ≡ at }
    {
        View { bytes, at }
    }

    // Where a section begins.
    fn begin(&self, s: Section) -> usize
        ensures { result ≡ begin_of self.now.at s }
    {
        match s {
            Section::Programs => self.at.programs,
            Section::Areas => self.at.areas,
            Section::Instructions => self.at.instructions,
            Section::Constants => self.at.constants,
            Section::Cells => self.at.cells,
        }
    }

    // Where record n of a section begins.
    fn place(&self, s: Section, n: usize) -> usize
        requires { record_place self.now.at s n < 65536 }
        ensures { result ≡ record_place self.now.at s n }
    {
        self.begin(s) + s.span(n)
    }

    // The bytes of k records of a section, from record n on.
    pub fn records(&self, s: Section, n: usize, k: usize) -> &'a [u8]
        requires { n + k ≤ count_of s self.now.bytes.now }
        ensures { AreRecords self.now.bytes.now self.now.at s n k result.now }
    {
        let start = self.place(s, n);
        let end = start + s.span(k);
        &self.bytes[start..end]
    }

    #[tactic(auto, unfolding(scope::specs::Image::program_field))]
    pub fn program(&self, p: usize) -> Program
        requires { p < programs self.now.bytes.now }
        ensures { result ≡ program_at self.now.bytes.now p }
    {
        let start = self.place(Section::Programs, p);
        Program {
            first: cells::get16(self.bytes, start),
            count: cells::get16(self.bytes, start + 2),
            formals: cells::get16(self.bytes, start + 4),
            temps: cells::get16(self.bytes, start + 6),
            start: cells::get16(self.bytes, start + 8),
            zero: cells::get16(self.bytes, start + 10),
        }
    }

    #[tactic(auto, unfolding(scope::specs::Image::area_field))]
    pub fn area(&self, a: usize) -> Area
        requires { a < areas self.now.bytes.now }
        ensures { result ≡ area_at self.now.bytes.now a }
    {
        let start = self.place(Section::Areas, a);
        Area {
            first: cells::get16(self.bytes, start),
            length: cells::get16(self.bytes, start + 2),
        }
    }

    #[tactic(auto, unfolding(scope::specs::Image::instruction_at))]
    pub fn instruction(&self, i: usize) -> Instruction
        requires { i < instructions self.now.bytes.now }
        ensures { result ≡ instruction_at self.now.bytes.now i }
    {
        let start = self.place(Section::Instructions, i);
        Instruction {
            code: self.bytes[start],
            condition: self.bytes[start + 1],
            a: cells::get16(self.bytes, start + 2),
            b: cells::get16(self.bytes, start + 4),
            zero: cells::get16(self.bytes, start + 6),
        }
    }

    pub fn constant(&self, k: usize) -> Cell
        requires { k < constants self.now.bytes.now }
        ensures { result ≡ constant_at self.now.bytes.now k }
    {
        cells::get_from(self.bytes, self.place(Section::Constants, k))
    }

    // Beside `constant`: another section, with its own offset and count.
    pub fn data_cell(&self, k: usize) -> Cell
        requires { k < data_cells self.now.bytes.now }
        ensures { result ≡ data_cell_at self.now.bytes.now k }
    {
        cells::get_from(self.bytes, self.place(Section::Cells, k))
    }
}
