// The layout rules of layout_of that need no table: scalars, rounding, and the one rule of vector, matrix and arrays.
#![tactic(auto)]

ghost use Rattle.std.specs.Prelude.{◌≡◌};
ghost use Rattle.arith.specs.Numbers.{fit};
ghost use Rattle.arith.specs.InCode.{in_code};
ghost use Rattle.spirv.specs.declared.Stride.{Stride};
ghost use Rattle.shapes.specs.Spans.{Says, layout_by, answer_by};
ghost use Rattle.layout.specs.Arrays.{number_layout, rounded, stride_of, by_element, array_layout, runtime_params};
ghost use Rattle.rules.specs.Rules.{SaysNumber, with_parts, scalar_of, params_of, of_vector, of_fixed, of_runtime, elements_of};

use arith::refusal::Refusal;
use shapes::{Components, LayoutConfig, MaybeDynMemLayout, MemLayout, MemTypeLayout, TypeLayout};
use spirv::Stride;

// ---- scalars

pub fn scalar_with_size_and_align(size: u32, align: u32) -> TypeLayout
    ensures { result ≡ scalar_of size align }
{
    TypeLayout::Concrete(MemTypeLayout {
        mem: MaybeDynMemLayout {
            fixed_base: MemLayout {
                align,
                legacy_align: align,
                size,
            },
            dyn_unit_stride: 0,
        },
        components: Components::Scalar,
    })
}

// Int and float.
#[tactic(auto, unfolding(arith::proofs::Opened::opened, layout::specs::Arrays::number_layout))]
pub fn scalar(width: u32) -> Result<TypeLayout, Refusal>
    ensures { Says result (λ f. number_layout width) }
{
    if width >= 8 && arith::is_power_of_two(width) {
        Ok(scalar_with_size_and_align(width / 8, width / 8))
    } else {
        Err(Refusal::ODD_WIDTH)
    }
}

// ---- rounding

// A size rounded to align; it is also rounded to legacy alignment, and where that isn't ignored both must agree.
#[tactic(auto, unfolding(arith::proofs::Opened::opened, layout::specs::Arrays::rounded))]
pub fn round_both(cfg: LayoutConfig, size: u32, mem: MaybeDynMemLayout) -> Result<u32, Refusal>
    ensures { SaysNumber result (λ parts. rounded cfg size (with_parts mem parts)) }
{
    let x = arith::align_to(size, mem.fixed_base.align)?;
    let y = arith::align_to(size, mem.fixed_base.legacy_align)?;
    if cfg.ignore_legacy_align || x == y {
        Ok(x)
    } else {
        Err(Refusal::AMBIGUOUS)
    }
}

// ---- vector, matrix and arrays

// What legacy alignment goes by: a vector's length, or the setting. Two rules of document 01: `None` would not say that the setting rules.
#[derive(Clone, Copy, Debug, PartialEq, Eq, Hash)]
pub enum Legacy {
    Vector(u32),
    Aggregate,
}

// What tells them apart. A runtime array has no length.
#[derive(Clone, Copy, Debug, PartialEq, Eq, Hash)]
pub struct ArrayParams {
    pub elem: u32,
    pub fixed_len: Option<u32>,
    pub stride: Stride,
    pub legacy: Legacy,
}

// What tells each kind of array apart, a function a kind, as document 01's rules have their words: a literal at a caller would be proved there.
pub fn vector_params(elem: u32, len: u32) -> ArrayParams
    ensures { result ≡ of_vector elem len }
{
    ArrayParams {
        elem,
        fixed_len: Some(len),
        stride: Stride::Undecorated,
        legacy: Legacy::Vector(len),
    }
}

pub fn fixed_params(elem: u32, len: u32, stride: Stride) -> ArrayParams
    ensures { result ≡ of_fixed elem len stride }
{
    ArrayParams {
        elem,
        fixed_len: Some(len),
        stride,
        legacy: Legacy::Aggregate,
    }
}

pub fn runtime_params(elem: u32, stride: Stride) -> ArrayParams
    ensures { result ≡ of_runtime elem stride }
{
    ArrayParams {
        elem,
        fixed_len: None,
        stride,
        legacy: Legacy::Aggregate,
    }
}

// The decoration; without one, the element's size rounded.
#[tactic(auto, unfolding(layout::specs::Arrays::stride_of))]
pub fn stride_of(cfg: LayoutConfig, stride: Stride, mem: MaybeDynMemLayout) -> Result<u32, Refusal>
    ensures { SaysNumber result (λ parts. stride_of cfg stride (with_parts mem parts)) }
{
    match stride {
        Stride::Decorated(n) => Ok(n),
        Stride::Undecorated => round_both(cfg, mem.fixed_base.size, mem),
    }
}

// A vector's by its length, and an array's at least the setting's.
#[tactic(auto, using(arith::proofs::Fitting::fit_fits))]
fn legacy_align(cfg: LayoutConfig, p: ArrayParams, legacy: u32) -> Result<u32, Refusal>
    ensures { result ≡ in_code (fit ((params_of cfg p).legacy legacy)) }
{
    match p.legacy {
        Legacy::Vector(len) => arith::product(if len <= 2 { 2 } else { 4 }, legacy),
        Legacy::Aggregate => Ok(legacy.max(cfg.min_aggregate_legacy_align)),
    }
}

// A runtime array's stride is its runtime stride. In rows, as C has them, a length 0 is none, here and below.
fn elements(p: ArrayParams, size: u32, align: u32, legacy_align: u32, stride: u32) -> TypeLayout
    ensures { result ≡ elements_of p size align legacy_align stride }
{
    TypeLayout::Concrete(MemTypeLayout {
        mem: MaybeDynMemLayout {
            fixed_base: MemLayout {
                align,
                legacy_align,
                size,
            },
            dyn_unit_stride: if p.fixed_len.is_some() { 0 } else { stride },
        },
        components: Components::Elements {
            stride,
            elem: p.elem,
            fixed_len: p.fixed_len.unwrap_or(0),
        },
    })
}

// An array of memory: runtime-sized; stride; zero stride; legacy alignment; size.
#[tactic(auto, unfolding(arith::proofs::Opened::opened, layout::specs::Arrays::by_element))]
fn array_of_memory(
    cfg: LayoutConfig,
    p: ArrayParams,
    e: MemTypeLayout,
) -> Result<TypeLayout, Refusal>
    ensures { Says result (λ f. by_element cfg (params_of cfg p) (layout_by f (TypeLayout.Concrete e))) }
{
    let base = e.mem.fixed_base;
    if e.mem.dyn_unit_stride != 0 {
        return Err(Refusal::UNSIZED_ELEMENT);
    }
    let stride = stride_of(cfg, p.stride, e.mem)?;
    if stride == 0 {
        return Err(Refusal::ZERO_STRIDE);
    }
    let legacy = legacy_align(cfg, p, base.legacy_align)?;
    let size = arith::product(stride, p.fixed_len.unwrap_or(0))?;
    Ok(elements(p, size, base.align, legacy, stride))
}

// An array by its element's layout.
#[tactic(auto, unfolding(layout::specs::Arrays::by_element))]
fn array_of_layout(cfg: LayoutConfig, p: ArrayParams, e: TypeLayout) -> Result<TypeLayout, Refusal>
    ensures { Says result (λ f. by_element cfg (params_of cfg p) (layout_by f e)) }
{
    match e {
        TypeLayout::Handle(h) => Ok(TypeLayout::HandleArray(h, p.fixed_len.unwrap_or(0))),
        TypeLayout::HandleArray(_, _) => Err(Refusal::NESTED_HANDLES),
        TypeLayout::Concrete(m) => array_of_memory(cfg, p, m),
    }
}

// A vector, matrix or array by what its element's type answers; zero length comes before that. Inlined, else its answer would be stored and read back.
#[tactic(auto, unfolding(arith::proofs::Opened::opened, layout::specs::Arrays::array_layout))]
#[inline(always)]
pub fn array(
    cfg: LayoutConfig,
    p: ArrayParams,
    elem: Result<TypeLayout, Refusal>,
) -> Result<TypeLayout, Refusal>
    ensures { Says result (λ f. array_layout cfg (λ t. answer_by f elem) (params_of cfg p)) }
{
    if p.fixed_len == Some(0) {
        return Err(Refusal::ZERO_LENGTH);
    }
    array_of_layout(cfg, p, elem?)
}

// The undecorated runtime array of a type, from which OpPtrAccessChain starts.
#[tactic(auto, unfolding(layout::specs::Arrays::runtime_params))]
pub fn runtime_array(
    cfg: LayoutConfig,
    t: u32,
    elem: Result<TypeLayout, Refusal>,
) -> Result<TypeLayout, Refusal>
    ensures { Says result (λ f. array_layout cfg (λ t. answer_by f elem) (runtime_params cfg t Stride.Undecorated)) }
{
    array(cfg, runtime_params(t, Stride::Undecorated), elem)
}
