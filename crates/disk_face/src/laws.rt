//! What follows of the images of a file.
ghost use Rattle.std.specs.Prelude.{◌≡◌, ℕ, List, Contains};
ghost use Rattle.byte_ranges.specs.Ranges.{SameOutside};
ghost use Rattle.disk_face.specs.{Moments.{ResizedImage}, Images.{Unsynced, IsImage, after_sync, with_length, with_range}};

/// The one image after a sync is what was synced.
pub fn synced_is_the_one_image()
    ensures { (bytes image : List ℕ) → IsImage (after_sync bytes) image → image ≡ bytes }
{}

/// A write takes part in each image, and leaves what lies outside its range.
pub fn a_write_leaves_what_lies_outside()
    ensures { (u : Unsynced) (at n : ℕ) (image : List ℕ) → IsImage (with_range u at n) image
        → (before : List ℕ) × IsImage u before × SameOutside at n before image }
{}

/// A length that is set takes part in each image, and leaves what lies below it and below both ends.
pub fn a_length_leaves_what_lies_below()
    ensures { (u : Unsynced) (n held : ℕ) (image : List ℕ) → Contains u.lengths held
        → IsImage (with_length u n) image → (before : List ℕ) × IsImage u before
        × ResizedImage n before image }
{}
