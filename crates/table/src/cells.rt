// Settings of the letters, and the rows of the table: one for each setting, with a slot for each of eight points.
ghost use Rattle.std.specs.Prelude.{◌≡◌, ℕ, ◌+◌, ◌*◌, ◌^◌, ◌<◌, eqb, get_or, replicate};
ghost use Rattle.table.specs.Table.{set_to, entry, Put};

// A setting of the letters, of which there are at most six: those of its set are true.
#[derive(Clone, Copy, PartialEq)]
pub struct Setting {
    pub letters: u8,
    ghost few: { letters < 64 },
}

impl Setting {
    // Where this setting has point x.
    pub fn place(self, x: u8) -> usize
        requires { x < 8 }
        ensures { (result ≡ self.letters * 8 + x) × (result < 512) }
    {
        self.letters as usize * 8 + x as usize
    }

    // The set of this scenario alone.
    pub fn scenario(self) -> u64
        ensures { result ≡ 2 ^ self.letters }
    {
        1u64 << self.letters
    }
}

// The letters s with those of the set as d has them, as a setting.
pub fn set_to(s: u8, set: u8, d: u8) -> Setting
    ensures { result.letters ≡ set_to s set d }
{
    Setting {
        letters: (s & !set | d) % 64,
    }
}

// The slot of point x in setting s.
pub fn slot_at(table: &[u8; 512], s: Setting, x: u8) -> u8
    requires { x < 8 }
    ensures { result ≡ entry table.now s.letters x }
{
    table[s.place(x)]
}

// The slots of setting s.
pub fn row_of(table: &[u8; 512], s: Setting) -> [u8; 8]
    ensures { (x : ℕ) → x < 8 → get_or result x 0 ≡ entry table.now s.letters x }
{
    let k = s.place(0);
    let mut slots = [0u8; 8];
    slots.copy_from_slice(&table[k..k + 8]);
    slots
}

// The slots of setting s become these.
pub fn put_row(table: &mut [u8; 512], s: Setting, slots: [u8; 8])
    ensures { Put table.old table.new s.letters slots }
{
    let k = s.place(0);
    table[k..k + 8].copy_from_slice(&slots);
}

// Setting s is struck: no win reaches it. 255 is no slot, and later than any.
pub fn strike(table: &mut [u8; 512], s: Setting)
    ensures { Put table.old table.new s.letters (replicate 8 255) }
{
    put_row(table, s, [255; 8]);
}

// Whether setting s is struck.
pub fn struck(table: &[u8; 512], s: Setting) -> bool
    ensures { result ≡ eqb (entry table.now s.letters 0) 255 }
{
    slot_at(table, s, 0) == 255
}
