// The check of a raw image.

ghost use Rattle.std.specs.Prelude.{◌≡◌, ◌≤◌, length, IfOk};
ghost use Rattle.app_image.specs.Raw.{IsMade};
ghost use Rattle.app_image.specs.Refusal.{checked};
ghost use Rattle.app_image.specs.Image.{IsValidImage};
ghost use Rattle.app_image.specs.Layout.{HasWords};

use crate::refusals::refusal;
use crate::settings::config_of;
use crate::{Image, ImageError, RawImage};

/// The valid image of a raw one, with the default of each setting that it does not give, or the least
/// cause that some record has, with the line of the first such record in the order tasks, objects,
/// vectors, settings. Takes no memory, and never answers `NoMemory`.
pub fn check(raw: RawImage) -> Result<Image, ImageError>
    requires { IsMade raw }
    ensures answer { result ≡ checked raw }
    ensures valid { IfOk result IsValidImage }
    ensures words { IfOk result HasWords }
{
    if let Some(error) = refusal(&raw) {
        return Err(error);
    }
    let config = config_of(&raw.config);
    let RawImage {
        tasks,
        objects,
        vectors,
        config: _,
        code,
        ram,
    } = raw;
    Ok(Image::of_parts(tasks, objects, vectors, code, ram, config))
}
