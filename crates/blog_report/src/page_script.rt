//! What the page does where scripts run.

/// The page's script: it draws the part of the picture that is chosen, and puts a button beside each command that copies it. It
/// reads the page's own data, and asks for nothing.
pub(crate) const SCRIPT: &str = "\
(function () {
  'use strict';
  function copy(code, button) {
    function tell(word) {
      button.textContent = word;
      setTimeout(function () { button.textContent = 'Copy'; }, 1500);
    }
    function select() {
      var range = document.createRange();
      range.selectNodeContents(code);
      var chosen = window.getSelection();
      chosen.removeAllRanges();
      chosen.addRange(range);
      tell(document.execCommand('copy') ? 'Copied' : 'Press Ctrl+C');
    }
    if (navigator.clipboard) {
      navigator.clipboard.writeText(code.textContent).then(function () { tell('Copied'); }, select);
    } else {
      select();
    }
  }
  document.querySelectorAll('.command').forEach(function (line) {
    var code = line.querySelector('code');
    var button = document.createElement('button');
    button.type = 'button';
    button.textContent = 'Copy';
    button.setAttribute('aria-label', 'Copy: ' + code.textContent);
    button.addEventListener('click', function () { copy(code, button); });
    line.appendChild(button);
  });

  var holder = document.getElementById('data');
  if (!holder) { return; }
  var data = JSON.parse(holder.textContent);
  var form = document.getElementById('part');
  var fields = form.elements;
  var plot = document.querySelector('.plot');
  var rows = document.querySelectorAll('.rows-axis span');
  var ticks = document.querySelectorAll('.time-axis span');
  var last = data.bars - 1;
  var kinds = ['d', 'u', 'i'];
  var words = ['deleted', 'updated', 'inserted'];

  function grouped(n) { return String(n).replace(/\\B(?=(\\d{3})+$)/g, ','); }
  function told(sums) {
    return words.map(function (word, kind) { return grouped(sums[kind]) + ' ' + word; }).join(', ');
  }
  function total(sums) { return sums[0] + sums[1] + sums[2]; }
  function topOf(most) {
    var power = 1;
    while (most > 9 * power) { power *= 10; }
    return power * [1, 2, 3, 4, 5, 6, 8, 10].find(function (times) { return most <= times * power; });
  }
  function make(name, parent) {
    var node = document.createElementNS('http://www.w3.org/2000/svg', name);
    parent.appendChild(node);
    return node;
  }
  function block(group, kind, place, base, height) {
    var path = make('path', group);
    path.setAttribute('class', kind);
    path.setAttribute('d', 'M' + place + ' ' + base + 'v-' + height + 'h.86v' + height + 'z');
  }
  function drawBar(place, sums, time, top) {
    var group = make('g', plot);
    make('title', group).textContent = time + ': ' + told(sums);
    block(group, 'h', place, 1000, 1000);
    var base = 1000;
    kinds.forEach(function (kind, n) {
      if (!sums[n]) { return; }
      var height = Math.min(1000, Math.max(12, Math.floor(sums[n] * 1000 / top)));
      block(group, kind, place, base, height);
      base -= height;
    });
  }
  function draw() {
    var from = Math.min(+fields.from.value, +fields.to.value);
    var to = Math.max(+fields.from.value, +fields.to.value);
    var table = +fields.table.value;
    var shown = kinds.map(function (kind) { return fields[kind].checked; });
    var bars = [];
    var all = [0, 0, 0];
    for (var n = from; n <= to; n++) { bars.push([0, 0, 0]); }
    data.parts.forEach(function (part) {
      if (part[0] < from || part[0] > to || (table >= 0 && part[1] !== table)) { return; }
      kinds.forEach(function (kind, n) {
        if (!shown[n]) { return; }
        bars[part[0] - from][n] += part[2 + n];
        all[n] += part[2 + n];
      });
    });
    var top = topOf(Math.max.apply(null, bars.map(total)));
    var count = Math.max(bars.length, 12);
    plot.textContent = '';
    plot.setAttribute('viewBox', '0 -36 ' + count + ' 1036');
    bars.forEach(function (sums, n) {
      if (total(sums)) { drawBar(n, sums, data.times[from + n], top); }
    });
    rows[0].textContent = grouped(top);
    rows[1].textContent = top % 2 ? '' : grouped(top / 2);
    ticks.forEach(function (tick, n) {
      var bar = from + Math.floor(count * n / (ticks.length - 1));
      tick.textContent = data.times[bar] || '';
    });
    fields.start.value = data.times[from];
    fields.end.value = data.times[to + 1];
    document.getElementById('sum').textContent = 'Shown: ' + told(all) + '.';
  }
  function whole() {
    ['from', 'to'].forEach(function (name) {
      fields[name].min = 0;
      fields[name].max = last;
    });
    fields.from.value = 0;
    fields.to.value = last;
    draw();
  }
  form.addEventListener('input', draw);
  form.addEventListener('submit', function (event) { event.preventDefault(); });
  form.addEventListener('reset', function () { setTimeout(whole, 0); });
  form.hidden = false;
  whole();
})();
";
