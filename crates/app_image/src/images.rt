// A raw image, and a valid one.

ghost use Rattle.std.specs.Prelude.{◌≡◌, ◌++◌, ◌≤◌, All, length, map};
ghost use Rattle.kern_base.specs.Tables.{KindTable};
ghost use Rattle.app_image.specs.Image.{kind_table, IsValidImage};
ghost use Rattle.app_image.specs.Layout.{IsWord, HasWordFields, HasWords};

use crate::{Config, ConfigLine, ObjDef, TaskDef, VectorDef};
use arrayvec::ArrayVec;
use kern_base::{Kind, Kinds};
use std::marker::Model;

/// What the lines of a case or the bytes of a binary image give, before the check.
#[derive(Drop)]
pub struct RawImage {
    pub tasks: Vec<TaskDef>,
    pub objects: Vec<ObjDef>,
    pub vectors: Vec<VectorDef>,
    pub config: Vec<ConfigLine>,
    pub code: Vec<u32>,
    pub ram: Vec<u32>,
}

impl Model for RawImage {
    ghost use Rattle.app_image.specs.Raw.{RawRecord};

    ghost Value = { RawRecord };

    ghost view = { λ r. record {
      tasks = r.tasks.items;
      objects = r.objects.items;
      vectors = r.vectors.items;
      config = r.config.items;
      code = r.code.items;
      ram = r.ram.items;
    } };
}

/// A valid image: it meets the conditions of `check`, and has no cause of refusal.
#[derive(Drop)]
pub struct Image {
    tasks: Vec<TaskDef>,
    objects: Vec<ObjDef>,
    vectors: Vec<VectorDef>,
    code: Vec<u32>,
    ram: Vec<u32>,
    config: Config,
    kinds: Kinds,
}

impl Model for Image {
    ghost use Rattle.app_image.specs.Image.{ImageRecord};

    ghost Value = { ImageRecord };

    ghost use Rattle.app_image.specs.ImageView.{image_view, IsSound};

    ghost view = { image_view };

    ghost invariant = { IsSound };
}

// Words are words, by their type: a law, to be called where a clause says so of the words of an image.
fn are_words(words: &[u32])
    ensures { All IsWord words.now }
{}

/// The kinds of at most 64 declared objects, in order.
pub fn kinds_in(objects: &[ObjDef]) -> ArrayVec<Kind, 64>
    requires { length objects.now ≤ 64 }
    ensures kinds { result.items ≡ map (λ o. o.kind) objects.now }
    ensures fields { All HasWordFields objects.now }
{
    let mut kinds = ArrayVec::new();
    for object in objects {
        are_words(&object.f);
        kinds.push(object.kind);
    }
    kinds
}

impl Image {
    // The image of these parts, with its table of kinds.
    pub(crate) fn of_parts(
        tasks: Vec<TaskDef>,
        objects: Vec<ObjDef>,
        vectors: Vec<VectorDef>,
        code: Vec<u32>,
        ram: Vec<u32>,
        config: Config,
    ) -> Image
        requires { IsValidImage (record { tasks = tasks.items; objects = objects.items; vectors = vectors.items; code = code.items; ram = ram.items; config = config }) }
        ensures value { result ≡ record { tasks = tasks.items; objects = objects.items; vectors = vectors.items; code = code.items; ram = ram.items; config = config } }
        ensures words { HasWords result }
    {
        are_words(&code);
        are_words(&ram);
        let kinds = Kinds::new(kinds_in(&objects), tasks.len() as u8);
        Image {
            tasks,
            objects,
            vectors,
            code,
            ram,
            config,
            kinds,
        }
    }

    /// The tasks, 1 to 60, by number.
    pub fn tasks(&self) -> &[TaskDef]
        ensures value { result.now ≡ self.now.tasks }
        ensures valid { IsValidImage self.now }
    {
        &self.tasks
    }

    /// The objects, at most 64, by number.
    pub fn objects(&self) -> &[ObjDef]
        ensures value { result.now ≡ self.now.objects }
        ensures valid { IsValidImage self.now }
    {
        &self.objects
    }

    /// The vectors, at most 32, in declared order.
    pub fn vectors(&self) -> &[VectorDef]
        ensures value { result.now ≡ self.now.vectors }
        ensures valid { IsValidImage self.now }
    {
        &self.vectors
    }

    /// The code words, 1 to 16,384.
    pub fn code(&self) -> &[u32]
        ensures value { result.now ≡ self.now.code }
        ensures valid { IsValidImage self.now }
        ensures words { HasWords self.now }
    {
        &self.code
    }

    /// The initial words of RAM, at most 65,536; the rest is 0.
    pub fn ram(&self) -> &[u32]
        ensures value { result.now ≡ self.now.ram }
        ensures valid { IsValidImage self.now }
        ensures words { HasWords self.now }
    {
        &self.ram
    }

    /// The settings.
    pub fn config(&self) -> Config
        ensures value { result ≡ self.now.config }
        ensures valid { IsValidImage self.now }
    {
        self.config
    }

    /// What the static checks of a call look at.
    pub fn kinds(&self) -> &Kinds
        ensures value { result.now ≡ kind_table self.now }
        ensures valid { IsValidImage self.now }
    {
        &self.kinds
    }
}
