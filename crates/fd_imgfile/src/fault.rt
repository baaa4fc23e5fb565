//! Why no image was read.
ghost use Rattle.std.specs.Prelude.{◌≡◌, Some};
ghost use Rattle.fd_imgfile.specs.Fault.{image_number, image_text};

use fd_image::BadImage;
use fd_site::Failed;
use std::alloc::AllocError;
use std::fmt;

/// Why no image was read.
#[derive(Clone, Copy, PartialEq, Eq, Debug)]
pub enum ImageFault {
    /// There is no such file.
    NoFile,
    /// The file is no image: the place of the first field that no image has there, or the lesser of the file's length and
    /// of the length that its tables need.
    NotImage(u64),
    /// The image breaks this rule at this place.
    BadImage(BadImage),
    /// The site failed, and its count of faults rose.
    SiteFault,
    /// No memory was left.
    NoMemory,
}

impl ImageFault {
    /// The number of its refusal. A fault of the site and want of memory refuse nothing, and have none: it is 0.
    pub fn number(&self) -> u8
        ensures { result ≡ image_number self.now }
    {
        match self {
            ImageFault::NoFile => 41,
            ImageFault::NotImage(_) => 42,
            ImageFault::BadImage(_) => 43,
            ImageFault::SiteFault | ImageFault::NoMemory => 0,
        }
    }
}

impl fmt::Display for ImageFault {
    ghost output = { λ fault. Some (image_text fault) };

    fn fmt<W: fmt::Write>(&self, f: &mut fmt::Formatter<W>) -> fmt::Result {
        match self {
            ImageFault::NoFile => write!(f, "no file"),
            ImageFault::NotImage(place) => write!(f, "not an image at {place}"),
            ImageFault::BadImage(BadImage { rule, place }) => write!(f, "rule {rule} at {place}"),
            ImageFault::SiteFault | ImageFault::NoMemory => Ok(()),
        }
    }
}

impl From<Failed> for ImageFault {
    ghost use Rattle.fd_imgfile.specs.declared.fault.ImageFault.TheVariants.{SiteFault};

    ghost from_gives = { λ _ fault. fault ≡ SiteFault };

    fn from(_: Failed) -> ImageFault {
        ImageFault::SiteFault
    }
}

impl From<AllocError> for ImageFault {
    ghost use Rattle.fd_imgfile.specs.declared.fault.ImageFault.TheVariants.{NoMemory};

    ghost from_gives = { λ _ fault. fault ≡ NoMemory };

    fn from(_: AllocError) -> ImageFault {
        ImageFault::NoMemory
    }
}
