// What is one: what a text says, and the text of a diagram.
ghost use Rattle.std.specs.Prelude.{◌≡◌, ℕ, List};
ghost use Rattle.scatter_text.specs.declared.file.TextFile.{TextFile};
ghost use Rattle.scatter_json.specs.declared.fault.JsonKind.{JsonKind};
ghost use Rattle.scatter_json.specs.JsonForm.{IsJsonOf, IsJsonFault};
ghost use Rattle.scatter_json.specs.Laws.{JsonTextIsOne};

/// A text has no file beside a fault, nor two faults, nor two files.
pub fn one_json()
    ensures file_or_fault { (bytes : List ℕ) (file : TextFile) (kind : JsonKind)
        → IsJsonOf bytes file → IsJsonFault bytes kind → ⊥ }
    ensures one_fault { (bytes : List ℕ) (k j : JsonKind)
        → IsJsonFault bytes k → IsJsonFault bytes j → k ≡ j }
    ensures one_file { (bytes : List ℕ) (f g : TextFile) → IsJsonOf bytes f → IsJsonOf bytes g
        → (f.vars ≡ g.vars) × (f.lines ≡ g.lines) × (f.asks ≡ g.asks) × (f.settle ≡ g.settle) }
{}

/// A diagram has one text.
pub fn one_json_text()
    ensures { JsonTextIsOne }
{}
