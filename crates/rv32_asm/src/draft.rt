// What the lines so far give.

ghost use Rattle.std.specs.Prelude.{◌≡◌, [], ◌≤◌};

use app_image::{ConfigLine, ObjDef, RawImage, TaskDef, VectorDef};
use std::alloc::Global;

/// What the lines so far give, and the words of one line.
#[derive(Drop)]
pub struct Draft {
    pub tasks: Vec<TaskDef>,
    pub objects: Vec<ObjDef>,
    pub vectors: Vec<VectorDef>,
    pub config: Vec<ConfigLine>,
    pub code: Vec<u32>,
    pub ram: Vec<u32>,
    pub words: Vec<u32>,
}

impl Draft {
    ghost use Rattle.rv32_asm.specs.DraftView.{image_of_words, raw_of};
    ghost use Rattle.rv32_asm.specs.Steps.{empty_image};

    pub fn new(alloc: Global) -> Draft
        ensures { raw_of result ≡ empty_image }
    {
        Draft {
            tasks: Vec::new(alloc),
            objects: Vec::new(alloc),
            vectors: Vec::new(alloc),
            config: Vec::new(alloc),
            code: Vec::new(alloc),
            ram: Vec::new(alloc),
            words: Vec::new(alloc),
        }
    }

    /// A draft that has these words of code and of RAM.
    pub fn with_words(alloc: Global, code: Vec<u32>, ram: Vec<u32>) -> Draft
        ensures image { raw_of result ≡ image_of_words code.items ram.items }
        ensures code { result.code.items ≡ code.items }
        ensures ram { result.ram.items ≡ ram.items }
    {
        Draft {
            tasks: Vec::new(alloc),
            objects: Vec::new(alloc),
            vectors: Vec::new(alloc),
            config: Vec::new(alloc),
            code,
            ram,
            words: Vec::new(alloc),
        }
    }

    pub fn into_raw(self) -> RawImage
        ensures { result ≡ raw_of self }
    {
        let Draft {
            tasks,
            objects,
            vectors,
            config,
            code,
            ram,
            words: _,
        } = self;
        RawImage {
            tasks,
            objects,
            vectors,
            config,
            code,
            ram,
        }
    }
}
