//! Images that are saved, started again and refused, computed by the definitions of images.
ghost use Rattle.worked_rows.specs.SavedImage.{ImagesAreSaved, ImagesAreStarted};
ghost use Rattle.worked_rows.specs.WrongImages.{BeginningsAreTold, WrongImagesAreTold};

/// Does nothing. Its contract is that an image holds what is persistent and nothing else, byte for byte.
pub fn images_are_saved()
    ensures { ImagesAreSaved }
{}

/// Does nothing. Its contract is that a service that an image starts holds what was saved, in both versions.
pub fn images_are_started()
    ensures { ImagesAreStarted }
{}

/// Does nothing. Its contract is that each beginning of an image is told at the line in which it ends.
pub fn beginnings_are_told()
    ensures { BeginningsAreTold }
{}

/// Does nothing. Its contract is that texts that are no images are told at their first wrong line.
pub fn wrong_images_are_told()
    ensures { WrongImagesAreTold }
{}
