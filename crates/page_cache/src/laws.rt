//! Laws of the list of pages. Each does nothing when it is called.
ghost use Rattle.std.specs.Prelude.{◌≡◌, ℕ, ◌+◌, ◌<◌, ◌≤◌, ◌==◌, ◌⊎◌, ◌↔◌, ◌&&◌, true, false, if◌then◌else◌, List, length, Some, None, count_by};
ghost use Rattle.std.specs.Option.{option_map};
ghost use Rattle.blk_base.specs.Members.{In};
ghost use Rattle.page_cache.specs.declared.cached_page.CachedPage.{CachedPage};
ghost use Rattle.page_cache.specs.declared.cached_page.PageState.{PageState};
ghost use Rattle.page_cache.specs.Pages.{Below, IsRising, is_page, is_unsent, is_before, is_dirty, page_at, put_page, drop_page, marked, mark_page, next_unsent, next_in_file, dirty_page};

/// A law, which does nothing when it is called: a page that is put is found, one that is dropped is not, one that is
/// marked has the state, and each other page is found as before.
pub fn pages_are_a_map()
    ensures put { (ps : List CachedPage) (q : CachedPage) (f i : ℕ) →
        page_at (put_page ps q) f i ≡ (if is_page q f i then Some q else page_at ps f i) }
    ensures dropped { (ps : List CachedPage) (g j f i : ℕ) →
        page_at (drop_page ps g j) f i ≡ (if (g == f && j == i) then None else page_at ps f i) }
    ensures marked { (ps : List CachedPage) (g j f i : ℕ) (s : PageState) →
        page_at (mark_page ps g j s) f i ≡
        (if (g == f && j == i) then option_map (λ p. marked p s) (page_at ps f i) else page_at ps f i) }
{}

/// A law, which does nothing when it is called: pages that stand in the order of birth and index still do after each
/// call, and each page of such a list is the one that is found under its birth and index. A put makes the list longer
/// by one exactly where the page is new.
pub fn pages_stand_in_order()
    ensures put { (ps : List CachedPage) (q : CachedPage) → IsRising ps → IsRising (put_page ps q) }
    ensures dropped { (ps : List CachedPage) (f i : ℕ) → IsRising ps → IsRising (drop_page ps f i) }
    ensures marked { (ps : List CachedPage) (f i : ℕ) (s : PageState) → IsRising ps → IsRising (mark_page ps f i s) }
    ensures found { (ps : List CachedPage) → IsRising ps → (p : CachedPage) → In p ps →
        page_at ps p.birth p.index ≡ Some p }
    ensures new { (ps : List CachedPage) (q : CachedPage) → IsRising ps → page_at ps q.birth q.index ≡ None →
        length (put_page ps q) ≡ length ps + 1 }
    ensures known { (ps : List CachedPage) (p q : CachedPage) → IsRising ps → page_at ps q.birth q.index ≡ Some p →
        length (put_page ps q) ≡ length ps }
{}

/// A law, which does nothing when it is called: what is found next is unsent, and every other unsent page from there
/// on stands behind it; nothing is found exactly where nothing is left. There is a Dirty page of a number exactly
/// where more pages than this number are Dirty.
pub fn next_page_is_least()
    ensures next { (ps : List CachedPage) (f from : ℕ) (p : CachedPage) → IsRising ps → next_unsent ps f from ≡ Some p →
        In p ps × (is_unsent p.state ≡ true) × (is_before p f from ≡ false) ×
        ((q : CachedPage) → In q ps → is_unsent q.state ≡ true → is_before q f from ≡ false → (p ≡ q) ⊎ Below p q) }
    ensures none { (ps : List CachedPage) (f from : ℕ) → (next_unsent ps f from ≡ None) ↔
        ((q : CachedPage) → In q ps → is_unsent q.state ≡ true → is_before q f from ≡ true) }
    ensures in_file { (ps : List CachedPage) (f from : ℕ) (p : CachedPage) → IsRising ps →
        next_in_file ps f from ≡ Some p →
        In p ps × (is_unsent p.state ≡ true) × (p.birth ≡ f) × (from ≤ p.index) ×
        ((q : CachedPage) → In q ps → is_unsent q.state ≡ true → q.birth ≡ f → from ≤ q.index → p.index ≤ q.index) }
    ensures none_in_file { (ps : List CachedPage) (f from : ℕ) → (next_in_file ps f from ≡ None) ↔
        ((q : CachedPage) → In q ps → is_unsent q.state ≡ true → q.birth ≡ f → q.index < from) }
    ensures none_dirty { (ps : List CachedPage) (pick : ℕ) → (dirty_page ps pick ≡ None) ↔
        (count_by (λ p. is_dirty p.state) ps ≤ pick) }
{}
