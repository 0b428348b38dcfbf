// Laws of one instruction, each the contract of a function that does nothing.

ghost use Rattle.rv32_exec.specs.Changes.{InstructionChangesWhatItTells, StoreChangesItsOwnBytes};
ghost use Rattle.rv32_exec.specs.Kept.{InstructionKeepsWords};

/// An instruction that traps changes no register and no memory, and no instruction but a store changes the memory.
pub fn an_instruction_changes_what_it_tells()
    ensures { InstructionChangesWhatItTells }
{}

/// A store changes the bytes of its own width, and no other byte.
pub fn a_store_changes_its_own_bytes()
    ensures { StoreChangesItsOwnBytes }
{}

/// An instruction on registers and a memory of words leaves words, and as many; pc stays a word too.
pub fn an_instruction_keeps_words()
    ensures { InstructionKeepsWords }
{}
