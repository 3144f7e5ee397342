//! What reads give is an image.
ghost use Rattle.disk_face.specs.Images.{IsImage};
ghost use Rattle.disk_history.specs.Histories.{History, file_of, unsynced_of};

/// What reads give is among the images.
pub fn what_reads_give_is_an_image()
    ensures { (h : History) → IsImage (unsynced_of h) (file_of h) }
{}
