//! Laws of the definitions, each the contract of a function that does nothing.

ghost use Rattle.std.specs.Prelude.{◌≡◌, ℕ, List, map, true};
ghost use Rattle.std.specs.List.{All};
ghost use Rattle.outside_io.specs.Files.{Files, Ascend};
ghost use Rattle.set_loader.specs.declared.file.File.{File};
ghost use Rattle.command_parts.specs.Folders.{ClassFiles, IsEmpty, is_class_path};
ghost use Rattle.command_parts.specs.Writing.{placed, with_files};

/// Files whose paths ascend and end in `.class`, once they are written into a folder that holds no file, are the class
/// files of that folder.
pub fn written_class_files()
    ensures { (old : Files) (dir : List ℕ) (list : List File) → IsEmpty old dir
        → Ascend (map (λ (file : File). file.path) list) → All (λ (file : File). is_class_path file.path ≡ true) list
        → ClassFiles (with_files old (map (placed dir) list)) dir list }
{}
