//! The law of files that open to a list.
ghost use Rattle.std.specs.Prelude.{◌≡◌, ℕ, List, length};
ghost use Rattle.news_types.specs.Names.{Bytes};
ghost use Rattle.news_types.specs.History.{History};
ghost use Rattle.store_files.specs.Store.{Opens, Cause, IsNotOfBytes};
ghost use Rattle.store_files.specs.declared.trouble.Trouble.{Trouble};

/// Bytes that open to a list show no trouble: only a disk or want of memory keeps a store with a list from being opened.
pub fn served_law()
    ensures { (log side : List ℕ) (store : Bytes) (h : History) → length store ≡ 16 → Opens log side store h → (t : Trouble) → Cause log side t → IsNotOfBytes t }
{}
