ghost use Rattle.std.specs.Prelude.{◌≡◌, ◌≢◌, ◌+◌, ◌<◌, ℕ, true, false, length};
ghost use Rattle.vx_section.specs.Forms.{SectionData, admits, admitted, with_byte, fresh};

/// Room that was made for a byte is there for good, and making it changes no byte. The second
/// different byte of a section brings four bits a place, and the seventeenth a byte each.
pub fn forms_go_on()
    // a byte that was put down once, or that had room, has room whatever is put down
    ensures known { (s : SectionData) (b place : ℕ)
        → admits (with_byte (admitted s b) place b) b ≡ true }
    ensures stays { (s : SectionData) (b c place : ℕ) → admits s b ≡ true
        → admits (with_byte (admitted s c) place c) b ≡ true }
    // and takes no other form
    ensures once { (s : SectionData) (b : ℕ) → admits s b ≡ true → admitted s b ≡ s }
    // room for a byte changes none
    ensures bytes { (s : SectionData) (b : ℕ) → (admitted s b).bytes ≡ s.bytes }
    // a second different byte in a fresh section, and further ones up to the sixteenth
    ensures second { (a b : ℕ) → a ≢ b → (admitted (fresh a) b).form ≡ 2 }
    ensures further { (s : SectionData) (b : ℕ) → admits s b ≡ false → length s.palette < 16
        → (admitted s b).form ≡ 2 }
    ensures counted { (s : SectionData) (b : ℕ) → admits s b ≡ false → length s.palette < 16
        → length (admitted s b).palette ≡ length s.palette + 1 }
    // and a seventeenth
    ensures seventeenth { (s : SectionData) (b : ℕ) → admits s b ≡ false → length s.palette ≡ 16
        → (admitted s b).form ≡ 3 }
{}
