// What is proved of every heap.
ghost use Rattle.heap.specs.Solutions.{General};

// The theorem that a heap with no cell that leads back to itself stands for its most general solution.
pub fn general()
    ensures { General }
{}
